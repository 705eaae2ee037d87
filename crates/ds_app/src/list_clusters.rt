//! `clusters`: the clusters of a netlist's registers, as a file of groups.
ghost use Rattle.std.specs.Prelude.{◌≡◌, ◌<◌, All, length, map};
ghost use Rattle.ds_outside.specs.Pen.{Puts};
ghost use Rattle.ds_outside.specs.Writes.{Writes};
ghost use Rattle.ds_lines.specs.Print.{line_text};
ghost use Rattle.ds_groups.specs.Names.{register_names};
ghost use Rattle.ds_groups.specs.Read.{register_name};
ghost use Rattle.ds_groups.specs.Written.{cluster_line, clusters_text, latches_text};
ghost use Rattle.ds_stage.specs.ClustersStage.{listed_stage};
ghost use Rattle.ds_stage.specs.Ends.{Ends, Never, RoseIn, UnlessUnread, UnlessUnwritten};
ghost use Rattle.ds_stage.specs.Ends.{output_between};
ghost use Rattle.ds_stage.specs.Stage.{then_stage};
ghost use Rattle.ds_stage.specs.Stages.{netlist_stage};
ghost use Rattle.ds_app.specs.JobStages.{listing_stage};
ghost use Rattle.ds_app.specs.Listed.{blank_before};

use ds_base::RegId;
use ds_cmd::ClustersJob;
use ds_design::{Design, Netlist};
use ds_outside::{Buffered, Files, Pen, Sink, WriteFault};
use ds_rows::put_register_name;
use ds_split::Clusters;
use ds_stage::{Splitting, Stop, cluster_netlist, read_netlist};
use itoa::Buffer;
use std::alloc::Global;

/// Reads a netlist, and the groups of its registers where they are named, and writes the clusters.
#[tactic(auto)]
pub fn list_clusters<F: Files, O: Sink>(
    alloc: Global,
    job: &ClustersJob,
    files: &mut F,
    out: &mut O,
) -> Result<(), Stop>
    ensures value { Ends (then_stage (netlist_stage (F.held files.old) job.now.net)
        (listing_stage (F.held files.old) job.now))
        (RoseIn (F.faults files.old) (F.faults files.new))
        (output_between O.written O.faults out.old out.new) result }

    ensures same_held { F.held files.new ≡ F.held files.old }
    ensures same_reads { UnlessUnread result (F.faults files.new ≡ F.faults files.old) }
    ensures same_writes { UnlessUnwritten result (O.faults out.new ≡ O.faults out.old) }
{
    let net = job.net.as_str();
    let netlist = read_netlist(alloc, files, net)?;
    let splitting = Splitting {
        clusters: job.clusters,
        groups: &job.groups,
        slack: 0,
    };
    let clusters = cluster_netlist(alloc, files, net, &netlist, splitting)?;
    list(&netlist, &clusters, out)
}

// Writes the clusters of a netlist.
fn list<O: Sink>(netlist: &Netlist, clusters: &Clusters, out: &mut O) -> Result<(), Stop>
    requires { All (λ registers. All (λ r. r < length netlist.now.registers) registers)
        clusters.now }
    ensures value { Ends (listed_stage netlist.now clusters.now) Never
        (output_between O.written O.faults out.old out.new) result }

    ensures same_writes { UnlessUnwritten result (O.faults out.new ≡ O.faults out.old) }
{
    match write_clusters(netlist, clusters, out) {
        Ok(()) => Ok(()),
        Err(_) => Err(Stop::Unwritten),
    }
}

// Writes the text by way of a buffer.
fn write_clusters<O: Sink>(
    netlist: &Netlist,
    clusters: &Clusters,
    out: &mut O,
) -> Result<(), WriteFault>
    requires { All (λ registers. All (λ r. r < length netlist.now.registers) registers)
        clusters.now }
    ensures { Writes result (O.written out.old) (O.written out.new) (O.faults out.old)
        (O.faults out.new) (clusters_text (register_names netlist.now) clusters.now) }
{
    let mut pen = Buffered::new(out);
    put_clusters(netlist.design(), clusters, &mut pen);
    pen.finish()
}

// Writes the lines of all clusters.
fn put_clusters<P: Pen>(design: &Design, clusters: &Clusters, pen: &mut P)
    requires { All (λ registers. All (λ r. r < length design.now.registers) registers)
        clusters.now }
    ensures { Puts (P.writing pen.old) (P.writing pen.new)
        (clusters_text (register_names design.now) clusters.now) }
{
    let members = clusters.members();
    for i in 0..members.len() {
        put_cluster(design, i, members[i].as_slice(), pen);
    }
}

// Writes the line of the cluster with a number.
fn put_cluster<P: Pen>(design: &Design, i: usize, registers: &[RegId], pen: &mut P)
    requires { All (λ r. r < length design.now.registers) registers.now }
    ensures { Puts (P.writing pen.old) (P.writing pen.new)
        (cluster_line (register_names design.now) i registers.now) }
{
    put_names(design, registers, pen);
    put_latches(i, pen);
    pen.put(b"\n");
}

// Writes the names of registers, parted by blanks.
fn put_names<P: Pen>(design: &Design, registers: &[RegId], pen: &mut P)
    requires { All (λ r. r < length design.now.registers) registers.now }
    ensures { Puts (P.writing pen.old) (P.writing pen.new)
        (line_text (map (register_name (register_names design.now)) registers.now)) }
{
    for k in 0..registers.len() {
        put_blank(k, pen);
        put_register_name(design, registers[k].index(), pen);
    }
}

// Writes what stands before the name with a number: a blank, but before the first.
fn put_blank<P: Pen>(k: usize, pen: &mut P)
    ensures { Puts (P.writing pen.old) (P.writing pen.new) (blank_before k) }
{
    if k > 0 {
        pen.put(b" ");
    }
}

// Writes the comment that names the latches of a cluster.
fn put_latches<P: Pen>(i: usize, pen: &mut P)
    ensures { Puts (P.writing pen.old) (P.writing pen.new) (latches_text i) }
{
    let mut buffer = Buffer::new();
    let number = buffer.format(i).as_bytes();
    pen.put(b" # M");
    pen.put(number);
    pen.put(b" S");
    pen.put(number);
}
