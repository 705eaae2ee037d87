//! Models of a text, and the lines of first faults.
use ds_base::Refusal;
use ds_blif::read;
use ds_design::Blif;
use ds_lines::{LinesFault, lines};
use std::alloc::Global;

// The line of a text's first fault, 0 where there is none.
fn fault_line(alloc: Global, text: &[u8]) -> Result<u64, LinesFault> {
    let lines = lines(alloc, text)?;
    match read(alloc, &lines) {
        Ok(_) => Ok(0),
        Err(Refusal::Fault(fault)) => Ok(fault.line),
        Err(Refusal::Memory) => Err(LinesFault::Memory),
    }
}

// Whether a text is read as two models, each with what stands in it.
fn has_both_models(alloc: Global, text: &[u8]) -> Result<bool, LinesFault> {
    let lines = lines(alloc, text)?;
    match &read(alloc, &lines) {
        Ok(blif) => Ok(are_both(blif)),
        Err(_) => Ok(false),
    }
}

// Whether these are two models, the first with its name and commands, the second with its line.
fn are_both(blif: &Blif) -> bool {
    let models = blif.models();
    models.len() == 2
        && models[0].name.get() == b"top".as_slice()
        && models[0].commands.as_slice().len() == 2
        && models[1].line == 4
}

#[test]
fn a_text_has_its_models(rt: HostRuntime) {
    let text = b".model top\n.inputs a\n.subckt low x=a\n.model low\n.inputs x\n.end\n";
    assert!(rt; matches!(has_both_models(rt.alloc(), text), Ok(true)));
}

#[test]
fn faults_have_their_lines(rt: HostRuntime) {
    let alloc = rt.alloc();
    let mixed = b".model m\n.inputs a b\n.outputs y\n.names a b y\n11 1\n00 0\n.end\n";
    assert!(rt; matches!(fault_line(alloc, mixed), Ok(6)));
    let skipped = b".model m\n.names a b y\n11 1\n.area 5\n00 1\n.end\n";
    assert!(rt; matches!(fault_line(alloc, skipped), Ok(0)));
    assert!(rt; matches!(fault_line(alloc, b"# no model\n.end\n"), Ok(1)));
}
