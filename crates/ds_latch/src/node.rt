//! The nodes of a split design.
ghost use Rattle.std.specs.Prelude.{◌≡◌, ◌<◌, ◌≤◌};
ghost use Rattle.ds_latch.specs.Node.{number_of};
ghost use Rattle.ds_latch.specs.Order.{open_tokens as open_tokens_of};

use ds_base::LatchId;

/// The vectors, the output row, and a master and a slave for each cluster, which has this number.
#[derive(Clone, Copy, Debug, PartialEq, Eq)]
pub enum Node {
    In,
    Out,
    Master(u32),
    Slave(u32),
}

impl Node {
    /// The node with a number.
    pub fn of(latch: LatchId) -> Self
        ensures { number_of result ≡ latch }
    {
        let number = latch.number();
        if number == 0 {
            Node::In
        } else if number == 1 {
            Node::Out
        } else if number % 2 == 0 {
            Node::Master(number / 2 - 1)
        } else {
            Node::Slave(number / 2 - 1)
        }
    }

    /// Its number.
    pub fn latch(self) -> LatchId
        requires { number_of self < 4294967296 }
        ensures { result ≡ number_of self }
    {
        match self {
            Node::In => LatchId::new(0),
            Node::Out => LatchId::new(1),
            Node::Master(i) => LatchId::new(2 * i + 2),
            Node::Slave(i) => LatchId::new(2 * i + 3),
        }
    }

    /// How many tokens the orders to the openings of its consumers have: a slave holds its initial
    /// value, so these may open once before it.
    pub fn open_tokens(self) -> u8
        ensures value { result ≡ open_tokens_of self }
        ensures low { result ≤ 1 }
    {
        match self {
            Node::In | Node::Out | Node::Master(_) => 0,
            Node::Slave(_) => 1,
        }
    }
}
