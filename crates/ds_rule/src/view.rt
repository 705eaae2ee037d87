ghost use Rattle.std.specs.Prelude.{ℕ, List, Bool};
ghost use Rattle.std.specs.Borrow.{ftrue};
ghost use Rattle.ds_rule.specs.Run.{Run};

use std::marker::Model;

/// What a pass knows. No value of it is made: all of it is for the proof.
pub struct View {
    // False of a pass that another took in.
    pub ghost live: { Bool },
    pub ghost run: { Run },
    // Which nodes it holds.
    pub ghost holds: { List Bool },
    // Of each event of a node that it holds, the tickets of its firings.
    pub ghost tickets: { List (List ℕ) },
    // Of each node, a number of firings that it knows of; of a node that it holds, all of them.
    pub ghost seen: { List ℕ },
    // A number of tickets that it knows to be drawn.
    pub ghost drawn: { ℕ },
    // How many counts it loaded, and the last of them.
    pub ghost looks: { ℕ },
    pub ghost last_node: { ℕ },
    pub ghost last_seen: { ℕ },
    // What follows keeps book for the proof, and no caller sees it.
    // 0 at rest, 1 in flight, 2 once the ticket is drawn.
    pub ghost phase: { ℕ },
    pub ghost node: { ℕ },
    pub ghost ticket: { ℕ },
    // In the flight of an opening, how many value words are written.
    pub ghost written: { ℕ },
    // Which nodes a pass and one that it took in both held: none, as a load after the join tells.
    pub ghost clash: { List Bool },
    // The node that is to be dealt.
    pub ghost cut: { ℕ },
}

impl Model for View {
    ghost also_owns = { λ _. ftrue };
}
