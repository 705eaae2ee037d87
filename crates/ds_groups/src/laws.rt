//! Laws of the definitions, each the contract of a function that does nothing.
ghost use Rattle.ds_groups.specs.Laws.{ClustersAreRead, GroupsAreDisjoint, MatchesByPieces};
ghost use Rattle.ds_groups.specs.Worked.{GroupsAreWorked};

/// A text matches a pattern exactly where the pattern's pieces stand in it in a row.
pub fn matches_by_pieces()
    ensures { MatchesByPieces }
{}

/// Groups of three registers, worked out.
pub fn groups_are_worked()
    ensures { GroupsAreWorked }
{}

/// Groups that lines stand for are disjoint and not empty, and there is one for each line.
pub fn groups_are_disjoint()
    ensures { GroupsAreDisjoint }
{}

/// The text that shows clusters is read as groups that are these clusters.
pub fn clusters_are_read()
    ensures { ClustersAreRead }
{}
