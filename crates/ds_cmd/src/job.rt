//! What a command line asks for, as a value: one variant for each command.
use crate::FileName;
use crate::accept::AcceptJob;
use crate::clock::ClockJob;
use crate::demo::DemoJob;
use crate::graph::GraphJob;
use crate::list_clusters::ClustersJob;
use crate::period::PeriodJob;
use crate::rate::RateJob;
use crate::replay::ReplayJob;
use crate::run::RunJob;
use crate::times::TimesJob;

/// What a command line asks for: a command, with its files and options.
#[derive(Drop)]
pub enum Job {
    /// The trace of a desynchronized run, or what the registers have stored so far when it stops.
    Run(RunJob),
    /// The trace of a clocked run.
    Clock(ClockJob),
    /// The sizes of the netlist in this file, where it is accepted.
    Check(FileName),
    /// The text of the controller graph, or of its expansion.
    Graph(GraphJob),
    /// What the registers have stored after the firings of a log.
    Replay(ReplayJob),
    /// The ranks of the events of a controller graph that is accepted.
    Accept(AcceptJob),
    /// The summary of a run of a netlist and vectors that are made of a number.
    Demo(DemoJob),
    /// The exact period of the controller graph, where its orders have the delays of a file.
    Period(PeriodJob),
    /// The clusters of the registers, each with its latches: a file of groups.
    Clusters(ClustersJob),
    /// The exact period of the graph of a file, where its arcs have the delays of another.
    Rate(RateJob),
    /// When each event of the graph fires, where its orders have the delays of a file.
    Times(TimesJob),
}
