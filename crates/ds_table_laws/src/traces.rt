//! A law of traces.
ghost use Rattle.ds_table_laws.specs.Traces.{TracesExist};

/// An accepted design has a trace on all vectors that are as wide as its columns.
pub fn traces_exist()
    ensures { TracesExist }
{}
