//! What a message says.

ghost use Rattle.std.specs.Prelude.{◌≡◌, ◌<◌, IfOk};
ghost use Rattle.net_base.specs.Parts.{Gives};
ghost use Rattle.session_wire.specs.Bodies.{IsBody, body_text, body_at, any_body_at, any_body_laws};

use ledger_types::Value;
use net_base::{PartFault, Reader, Spelt, TryCopy, Writer, read_kind};
use std::alloc::{AllocError, Global};

/// An item of a session: what one side sends the other. The items of each direction are numbered from 0.
#[derive(Debug, Drop)]
pub enum Body {
    /// Asks the other side to begin a flow of the class, and carries the first value. It is the item 0 from the
    /// initiator.
    Init {
        /// The class of the flow to begin.
        class: u16,
        /// What that flow receives first.
        first: Value,
    },
    /// The flow was begun. This or `Reject` is the item 0 to the initiator.
    Confirm,
    /// No flow was begun.
    Reject {
        /// The reason, by its code.
        code: u16,
    },
    /// A value for the other side's flow.
    Data {
        /// What that flow receives.
        value: Value,
    },
    /// The flow failed.
    Error {
        /// The reason, by its code.
        code: u16,
    },
    /// The flow ended.
    End,
}

/// Reads a body that is lawful at the direction and number.
#[tactic(auto, unfolding(crate::specs::Bodies::body_at))]
pub(crate) fn read_body(
    alloc: Global,
    from: &mut Reader,
    direction: u8,
    seq: u32,
) -> Result<Body, PartFault>
    ensures { Gives (λ x. x) result from.old from.new (body_at direction seq from.old.left) }
{
    if seq != 0 {
        match read_kind(from, &[4, 5, 6])? {
            4 => Ok(Body::Data {
                value: Spelt::read_part(alloc, from)?,
            }),
            5 => Ok(Body::Error {
                code: Spelt::read_part(alloc, from)?,
            }),
            _ => Ok(Body::End),
        }
    } else if direction == 0 {
        let _ = read_kind(from, &[1])?;
        Ok(Body::Init {
            class: Spelt::read_part(alloc, from)?,
            first: Spelt::read_part(alloc, from)?,
        })
    } else {
        match read_kind(from, &[2, 3])? {
            2 => Ok(Body::Confirm),
            _ => Ok(Body::Reject {
                code: Spelt::read_part(alloc, from)?,
            }),
        }
    }
}

#[tactic(auto, unfolding(crate::specs::Bodies::any_body_at))]
impl Spelt for Body {
    ghost spelling = { body_text };

    ghost within = { IsBody };

    ghost reading = { any_body_at };

    ghost laws = { any_body_laws };

    fn read_part(alloc: Global, from: &mut Reader) -> Result<Body, PartFault> {
        match read_kind(from, &[1, 2, 3, 4, 5, 6])? {
            1 => Ok(Body::Init {
                class: Spelt::read_part(alloc, from)?,
                first: Spelt::read_part(alloc, from)?,
            }),
            2 => Ok(Body::Confirm),
            3 => Ok(Body::Reject {
                code: Spelt::read_part(alloc, from)?,
            }),
            4 => Ok(Body::Data {
                value: Spelt::read_part(alloc, from)?,
            }),
            5 => Ok(Body::Error {
                code: Spelt::read_part(alloc, from)?,
            }),
            _ => Ok(Body::End),
        }
    }

    fn write_part(&self, alloc: Global, out: &mut Writer) -> Result<(), AllocError> {
        match self {
            Body::Init { class, first } => {
                out.put_u8(alloc, 1)?;
                class.write_part(alloc, out)?;
                first.write_part(alloc, out)?;
            }
            Body::Confirm => {
                out.put_u8(alloc, 2)?;
            }
            Body::Reject { code } => {
                out.put_u8(alloc, 3)?;
                code.write_part(alloc, out)?;
            }
            Body::Data { value } => {
                out.put_u8(alloc, 4)?;
                value.write_part(alloc, out)?;
            }
            Body::Error { code } => {
                out.put_u8(alloc, 5)?;
                code.write_part(alloc, out)?;
            }
            Body::End => {
                out.put_u8(alloc, 6)?;
            }
        }
        Ok(())
    }
}

impl Body {
    /// An equal item.
    ///
    /// # Errors
    ///
    /// Want of memory.
    pub fn copy(&self, alloc: Global) -> Result<Body, AllocError>
        ensures { IfOk result (λ body. body ≡ self.now) }
    {
        match self {
            Body::Init { class, first } => Ok(Body::Init {
                class: *class,
                first: first.copy(alloc)?,
            }),
            Body::Confirm => Ok(Body::Confirm),
            Body::Reject { code } => Ok(Body::Reject { code: *code }),
            Body::Data { value } => Ok(Body::Data {
                value: value.copy(alloc)?,
            }),
            Body::Error { code } => Ok(Body::Error { code: *code }),
            Body::End => Ok(Body::End),
        }
    }
}

impl TryCopy for Body {
    fn try_copy(&self, alloc: Global) -> Result<Body, AllocError> {
        self.copy(alloc)
    }
}
