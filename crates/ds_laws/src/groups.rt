//! Laws of clusters with groups.
ghost use Rattle.ds_laws.specs.Grouping.{PrintedClustersAreGroups, WithoutFileOfGroups};

/// What `clusters` prints is a file of groups, with which the clusters are the same, by any mode.
pub fn printed_clusters_are_groups()
    ensures { PrintedClustersAreGroups }
{}

/// Where no file of groups is named, a netlist is split by its mode alone.
pub fn without_file_of_groups()
    ensures { WithoutFileOfGroups }
{}
