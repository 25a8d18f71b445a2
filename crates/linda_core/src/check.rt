//! Which operations are lawful.
ghost use Rattle.std.specs.Prelude.{◌≡◌, Err};
ghost use Rattle.linda_core.specs.Lawful.{fault_of};

use crate::call::LindaOp;
use thiserror::Error;

/// Why an operation is refused before it reaches a linda.
#[derive(Clone, Copy, Debug, Error, PartialEq, Eq)]
pub enum OpFault {
    /// A Receive names no key.
    #[error("bad linda key")]
    BadKey,
    /// A Send has no value.
    #[error("no data to send")]
    NoData,
    /// A Batch wants no value or more at least than at most, or a Get wants none.
    #[error("bad count")]
    BadCount,
}

/// Whether an operation is lawful. Every other call on a linda has the condition that its operation
/// is.
pub fn check_op(op: &LindaOp) -> Result<(), OpFault>
    ensures { result ≡ fault_of op.now }
{
    match op {
        LindaOp::Send { values, .. } if values.as_slice().is_empty() => Err(OpFault::NoData),
        LindaOp::Receive { keys } if keys.as_slice().is_empty() => Err(OpFault::BadKey),
        LindaOp::Batch { min, max, .. } if *min == 0 || *max < *min => Err(OpFault::BadCount),
        LindaOp::Get { count: 0, .. } => Err(OpFault::BadCount),
        _ => Ok(()),
    }
}
