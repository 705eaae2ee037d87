use ds_base::Mode;
use ds_cmd::FileName;

/// How a netlist is split into latches: which registers share a pair of them, by a file of groups,
/// where one is named, and by a mode, and how many openings a producer may run ahead of its
/// consumers, at most 15.
#[derive(Clone, Copy)]
pub struct Splitting<'a> {
    pub clusters: Mode,
    pub groups: &'a Option<FileName>,
    pub slack: u8,
}
