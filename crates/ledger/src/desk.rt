// The desk: the slips that the registers gave and that are not spent yet.
ghost use Rattle.std.specs.Prelude.{◌<◌, IfSome, vec_len};
ghost use Rattle.ledger.specs.Histories.{GoesOn};

use crate::answers::Failure;
use register::registers::Register;
use register::slips::Slip;

// One of the two registers.
#[derive(Clone, Copy, PartialEq, Eq, Debug)]
pub enum Which {
    First,
    Second,
}

// A slip, the name of its draft, and the register that gave it.
pub struct Paper<'a> {
    pub name: &'a [u8],
    pub from: Which,
    pub slip: Slip,
}

// Where the slip of a name lies, one of the register in use if there is one.
pub fn find(desk: &Vec<Paper<'_>>, name: &[u8], in_use: Which) -> Option<usize>
    ensures { IfSome result (λ i. i < vec_len desk.now) }
{
    desk.iter()
        .position(|paper| paper.name == name && paper.from == in_use)
        .or(desk.iter().position(|paper| paper.name == name))
}

// Lays a slip on the desk; where there is no memory for it, it is abandoned.
pub fn lay<'a>(
    register: &mut Register<'_>,
    desk: &mut Vec<Paper<'a>>,
    paper: Paper<'a>,
) -> Result<(), Failure>
    ensures { GoesOn register.old.store register.new.store }
{
    // A slip must be spent, so what the push gives back is taken apart.
    match desk.push(paper) {
        Ok(()) => Ok(()),
        Err(refused) => {
            let Paper {
                name: _,
                from: _,
                slip,
            } = refused.value;
            let _ = register.abandon(slip);
            Err(Failure::DeskFull)
        }
    }
}
