//! What a finished design takes over from its draft as it stands.

use ds_base::{Name, NetId, Seq};
use ds_design::Net;

/// The name, the nets and the interface of a design that is made of a draft.
#[derive(Drop)]
pub struct Head {
    pub name: Name,
    pub nets: Seq<Net>,
    pub inputs: Seq<NetId>,
    pub outputs: Seq<NetId>,
    pub clocks: Seq<NetId>,
}
