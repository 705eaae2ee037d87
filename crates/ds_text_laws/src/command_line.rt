//! Laws of command lines: for each command a plain line that is taken, so that what is said of all
//! lines is not said of none.
ghost use Rattle.std.specs.Prelude.{◌≡◌, ◌<◌, ◌≤◌, ◌^◌, ℕ, List, [], ◌∷◌, Ok, Err};
ghost use Rattle.std.specs.Prelude.{Some, true, false, codes};
ghost use Rattle.std.specs.Fmt.{decimal};
ghost use Rattle.ds_cmd.specs.Line.{job_of};
ghost use Rattle.ds_cmd.specs.Plain.{is_command, is_plain};
ghost use Rattle.ds_cmd.specs.declared.job.Job.TheVariants.{Run, Clock, Check, Graph};
ghost use Rattle.ds_cmd.specs.declared.job.Job.TheVariants.{Replay, Accept, Demo, Period, Clusters};
ghost use Rattle.ds_cmd.specs.declared.job.Job.TheVariants.{Rate, Times};
ghost use Rattle.ds_base.specs.declared.number.Mode.{Mode};
ghost use Rattle.ds_cmd.specs.Clusters.{mode_word};
ghost use Rattle.ds_cmd.specs.declared.fault.UsageFault.TheVariants.{Line};
ghost use Rattle.ds_text_laws.specs.BareJobs.{bare_accept, bare_clusters, bare_graph, bare_period};
ghost use Rattle.ds_text_laws.specs.BareJobs.{bare_replay, bare_run, bare_times};

/// `run` with two names of files is taken, whatever the program's name is; each register is then a
/// cluster of its own, unless the word behind `--clusters` says otherwise, and no controller graph
/// is named, unless `--graph` does; one thread is wanted, unless `--jobs` says otherwise, no log,
/// unless `--log` stands there, and no slack, unless `--slack` says otherwise; the run goes to its
/// end, unless a number stands behind `--stop`.
pub fn run_is_taken()
    ensures each { (program net vec : List ℕ) → is_plain net ≡ true → is_plain vec ≡ true
        → job_of (program ∷ codes "run" ∷ net ∷ vec ∷ []) ≡ Ok (Run (bare_run net vec)) }
    ensures clusters { (program net vec : List ℕ) (mode : Mode) → is_plain net ≡ true
        → is_plain vec ≡ true
        → job_of (program ∷ codes "run" ∷ net ∷ vec ∷ codes "--clusters" ∷ mode_word mode ∷ [])
        ≡ Ok (Run (record (bare_run net vec) { clusters = mode })) }
    ensures graph { (program net vec graph : List ℕ) → is_plain net ≡ true → is_plain vec ≡ true
        → is_plain graph ≡ true
        → job_of (program ∷ codes "run" ∷ net ∷ vec ∷ codes "--graph" ∷ graph ∷ [])
        ≡ Ok (Run (record (bare_run net vec) { graph = Some graph })) }
    ensures jobs { (program net vec : List ℕ) (jobs : ℕ) → is_plain net ≡ true → is_plain vec ≡ true
        → 1 ≤ jobs → jobs ≤ 64
        → job_of (program ∷ codes "run" ∷ net ∷ vec ∷ codes "--jobs" ∷ decimal jobs ∷ [])
        ≡ Ok (Run (record (bare_run net vec) { jobs = jobs })) }
    ensures log { (program net vec : List ℕ) → is_plain net ≡ true → is_plain vec ≡ true
        → job_of (program ∷ codes "run" ∷ net ∷ vec ∷ codes "--log" ∷ [])
        ≡ Ok (Run (record (bare_run net vec) { log = true })) }
    ensures slack { (program net vec : List ℕ) (slack : ℕ) → is_plain net ≡ true
        → is_plain vec ≡ true → slack ≤ 15
        → job_of (program ∷ codes "run" ∷ net ∷ vec ∷ codes "--slack" ∷ decimal slack ∷ [])
        ≡ Ok (Run (record (bare_run net vec) { slack = slack })) }
    ensures stop { (program net vec : List ℕ) (stop : ℕ) → is_plain net ≡ true
        → is_plain vec ≡ true → stop < 2 ^ 64
        → job_of (program ∷ codes "run" ∷ net ∷ vec ∷ codes "--stop" ∷ decimal stop ∷ [])
        ≡ Ok (Run (record (bare_run net vec) { stop = Some stop })) }
{}

/// `clock` with two names of files is taken.
pub fn clock_is_taken()
    ensures { (program net vec : List ℕ) → is_plain net ≡ true → is_plain vec ≡ true
        → job_of (program ∷ codes "clock" ∷ net ∷ vec ∷ [])
        ≡ Ok (Clock (record { net = net; vec = vec })) }
{}

/// `check` with the name of a file is taken.
pub fn check_is_taken()
    ensures { (program net : List ℕ) → is_plain net ≡ true
        → job_of (program ∷ codes "check" ∷ net ∷ []) ≡ Ok (Check net) }
{}

/// `graph` with the name of a file is taken; each register is then a cluster of its own, unless the
/// word behind `--clusters` says otherwise, there is no slack, unless `--slack` says otherwise, and
/// the graph is not expanded, unless `--shake` stands there.
pub fn graph_is_taken()
    ensures each { (program net : List ℕ) → is_plain net ≡ true
        → job_of (program ∷ codes "graph" ∷ net ∷ []) ≡ Ok (Graph (bare_graph net)) }
    ensures clusters { (program net : List ℕ) (mode : Mode) → is_plain net ≡ true
        → job_of (program ∷ codes "graph" ∷ net ∷ codes "--clusters" ∷ mode_word mode ∷ [])
        ≡ Ok (Graph (record (bare_graph net) { clusters = mode })) }
    ensures shake { (program net : List ℕ) → is_plain net ≡ true
        → job_of (program ∷ codes "graph" ∷ net ∷ codes "--shake" ∷ [])
        ≡ Ok (Graph (record (bare_graph net) { shake = true })) }
    ensures slack { (program net : List ℕ) (slack : ℕ) → is_plain net ≡ true → slack ≤ 15
        → job_of (program ∷ codes "graph" ∷ net ∷ codes "--slack" ∷ decimal slack ∷ [])
        ≡ Ok (Graph (record (bare_graph net) { slack = slack })) }
{}

/// `replay` with three names of files is taken; then without slack, unless `--slack` says
/// otherwise, and open latches are not shown, unless `--transparent` stands there.
pub fn replay_is_taken()
    ensures each { (program net vec log : List ℕ) → is_plain net ≡ true → is_plain vec ≡ true
        → is_plain log ≡ true
        → job_of (program ∷ codes "replay" ∷ net ∷ vec ∷ log ∷ [])
        ≡ Ok (Replay (bare_replay net vec log)) }
    ensures slack { (program net vec log : List ℕ) (slack : ℕ) → is_plain net ≡ true
        → is_plain vec ≡ true → is_plain log ≡ true → slack ≤ 15
        → job_of (program ∷ codes "replay" ∷ net ∷ vec ∷ log ∷ codes "--slack" ∷ decimal slack ∷ [])
        ≡ Ok (Replay (record (bare_replay net vec log) { slack = slack })) }
    ensures transparent { (program net vec log : List ℕ) → is_plain net ≡ true
        → is_plain vec ≡ true → is_plain log ≡ true
        → job_of (program ∷ codes "replay" ∷ net ∷ vec ∷ log ∷ codes "--transparent" ∷ [])
        ≡ Ok (Replay (record (bare_replay net vec log) { transparent = true })) }
{}

/// `accept` with two names of files is taken; then without slack, unless `--slack` says otherwise.
pub fn accept_is_taken()
    ensures each { (program net graph : List ℕ) → is_plain net ≡ true → is_plain graph ≡ true
        → job_of (program ∷ codes "accept" ∷ net ∷ graph ∷ [])
        ≡ Ok (Accept (bare_accept net graph)) }
    ensures slack { (program net graph : List ℕ) (slack : ℕ) → is_plain net ≡ true
        → is_plain graph ≡ true → slack ≤ 15
        → job_of (program ∷ codes "accept" ∷ net ∷ graph ∷ codes "--slack" ∷ decimal slack ∷ [])
        ≡ Ok (Accept (record (bare_accept net graph) { slack = slack })) }
{}

/// `demo` with three numbers in decimal is taken, where they are in range; one thread is then
/// wanted, unless `--jobs` says otherwise.
pub fn demo_is_taken()
    ensures one { (program : List ℕ) (seed registers turns : ℕ) → seed < 2 ^ 64
        → 1 ≤ registers → registers ≤ 4096 → turns ≤ 65536
        → job_of (program ∷ codes "demo" ∷ decimal seed ∷ decimal registers ∷ decimal turns ∷ [])
        ≡ Ok (Demo (record { seed = seed; registers = registers; turns = turns; jobs = 1 })) }
    ensures jobs { (program : List ℕ) (seed registers turns jobs : ℕ) → seed < 2 ^ 64
        → 1 ≤ registers → registers ≤ 4096 → turns ≤ 65536 → 1 ≤ jobs → jobs ≤ 64
        → job_of (program ∷ codes "demo" ∷ decimal seed ∷ decimal registers ∷ decimal turns
        ∷ codes "--jobs" ∷ decimal jobs ∷ [])
        ≡ Ok (Demo (record { seed = seed; registers = registers; turns = turns; jobs = jobs })) }
{}

/// `period` with two names of files is taken; each register is then a cluster of its own, unless
/// the word behind `--clusters` says otherwise, no controller graph is named, unless `--graph`
/// does, and there is no slack, unless `--slack` says otherwise.
pub fn period_is_taken()
    ensures each { (program net delays : List ℕ) → is_plain net ≡ true → is_plain delays ≡ true
        → job_of (program ∷ codes "period" ∷ net ∷ delays ∷ [])
        ≡ Ok (Period (bare_period net delays)) }
    ensures clusters { (program net delays : List ℕ) (mode : Mode) → is_plain net ≡ true
        → is_plain delays ≡ true
        → job_of (program ∷ codes "period" ∷ net ∷ delays ∷ codes "--clusters" ∷ mode_word mode
        ∷ []) ≡ Ok (Period (record (bare_period net delays) { clusters = mode })) }
    ensures graph { (program net delays graph : List ℕ) → is_plain net ≡ true
        → is_plain delays ≡ true → is_plain graph ≡ true
        → job_of (program ∷ codes "period" ∷ net ∷ delays ∷ codes "--graph" ∷ graph ∷ [])
        ≡ Ok (Period (record (bare_period net delays) { graph = Some graph })) }
    ensures slack { (program net delays : List ℕ) (slack : ℕ) → is_plain net ≡ true
        → is_plain delays ≡ true → slack ≤ 15
        → job_of (program ∷ codes "period" ∷ net ∷ delays ∷ codes "--slack" ∷ decimal slack ∷ [])
        ≡ Ok (Period (record (bare_period net delays) { slack = slack })) }
{}

/// `clusters` with the name of a file is taken; each register is then a cluster of its own, and no
/// file of groups is named, unless `--groups` stands there.
pub fn clusters_is_taken()
    ensures each { (program net : List ℕ) → is_plain net ≡ true
        → job_of (program ∷ codes "clusters" ∷ net ∷ []) ≡ Ok (Clusters (bare_clusters net)) }
    ensures groups { (program net groups : List ℕ) → is_plain net ≡ true → is_plain groups ≡ true
        → job_of (program ∷ codes "clusters" ∷ net ∷ codes "--groups" ∷ groups ∷ [])
        ≡ Ok (Clusters (record (bare_clusters net) { groups = Some groups })) }
{}

/// `rate` with two names of files is taken.
pub fn rate_is_taken()
    ensures { (program graph delays : List ℕ) → is_plain graph ≡ true → is_plain delays ≡ true
        → job_of (program ∷ codes "rate" ∷ graph ∷ delays ∷ [])
        ≡ Ok (Rate (record { graph = graph; delays = delays })) }
{}

/// `times` with two names of files and a number in decimal is taken, where it is in range; each
/// register is then a cluster of its own, no controller graph is named, and there is no slack.
pub fn times_is_taken()
    ensures { (program net delays : List ℕ) (turns : ℕ) → is_plain net ≡ true
        → is_plain delays ≡ true → turns ≤ 65536
        → job_of (program ∷ codes "times" ∷ net ∷ delays ∷ decimal turns ∷ [])
        ≡ Ok (Times (bare_times net delays turns)) }
{}

/// A line that begins with another name than that of a command is refused, whatever follows.
pub fn other_names_are_refused()
    ensures { (program name : List ℕ) (words : List (List ℕ)) → is_plain name ≡ true
        → is_command name ≡ false → job_of (program ∷ name ∷ words) ≡ Err Line }
{}
