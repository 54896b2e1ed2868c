//! Rows of customers in text form.
ghost use Rattle.std.specs.Prelude.{IfErr, IfOk, string_bytes};
ghost use Rattle.mysql_wire_part.specs.ParseBuf.{left};
ghost use Rattle.shop_example.specs.CustomerRow.{IsCustomerRow, IsRowRefusal};

use crate::cell::{CellError, cell};
use mysql_wire_part::ParseBuf;
use std::alloc::Global;

/// A customer.
#[derive(Drop)]
pub struct Customer {
    pub id: u32,
    pub name: String,
}

/// The customer of the next two cells, a number and a text.
pub fn read_customer(alloc: Global, buf: &mut ParseBuf<'_>) -> Result<Customer, CellError>
    ensures row { IfOk result (λ customer.
        IsCustomerRow customer.id (string_bytes customer.name) (left buf.old) (left buf.new)) }
    ensures refused { IfErr result (IsRowRefusal (left buf.old) (left buf.new)) }
{
    let id = cell::<u32>(alloc, buf)?;
    let name = cell::<String>(alloc, buf)?;
    Ok(Customer { id, name })
}

#[cfg(test)]
mod tests {
    use super::*;
    use crate::shared::{answer_of, same};
    use crate::state::State;
    use mysql_wire_part::WireError;

    #[test]
    fn a_row(rt: HostRuntime) {
        let mut buf = ParseBuf(b"\x0242\x03Ann\x012");
        let customer = answer_of(&rt, read_customer(rt.alloc(), &mut buf));
        same(&rt, (customer.id, customer.name.as_str()), (42, "Ann"));
        same(&rt, buf.0, b"\x012".as_slice());
    }

    #[test]
    fn cells_of_other_types(rt: HostRuntime) {
        let mut buf = ParseBuf(b"\x012\xFB");
        let state = answer_of(&rt, cell::<State>(rt.alloc(), &mut buf));
        same(&rt, state, State::Sent);
        let none = answer_of(&rt, cell::<Option<u8>>(rt.alloc(), &mut buf));
        same(&rt, none, None);
    }

    #[test]
    fn refused(rt: HostRuntime) {
        let refusal = read_customer(rt.alloc(), &mut ParseBuf(b"\x024x\x03Ann")).err();
        same(&rt, matches!(&refusal, Some(CellError::Value(_))), true);
    }

    #[test]
    fn refused_at_the_end(rt: HostRuntime) {
        let refusal = read_customer(rt.alloc(), &mut ParseBuf(b"\x0242\x03An")).err();
        let wanted = Some(CellError::Wire(WireError::UnexpectedEof));
        same(&rt, &refusal, &wanted);
    }
}
