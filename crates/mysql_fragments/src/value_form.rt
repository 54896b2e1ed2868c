//! The form in which the values of fragments are written: as literals, or as marks.
ghost use Rattle.std.specs.Prelude.{◌≡◌, ◌++◌, IfOk, OnErr, Some, ⊤, codes};
ghost use Rattle.mysql_binding.specs.LiteralForm.{Literals, LiteralFacts, written_literal};
ghost use Rattle.mysql_binding.specs.PushedLiteral.{IsKnownUnlessFloat};

use mysql_binding::{LiteralForm, push_literal};
use mysql_values::value::Value;
use std::alloc::AllocError;

/// A form in which the values of fragments are written.
pub(crate) trait ValueForm {
    // the text of each value
    ghost written: { Self → Literals };

    // the facts that are known about that text
    ghost IsKnown: { Self → LiteralFacts };

    /// Appends the text of a value in this form, and nothing if the form has no text for it. If
    /// memory is refused, the text stays as it is.
    fn push(&self, text: &mut Vec<u8>, value: &Value) -> Result<(), AllocError>
        ensures text { IfOk result (λ done. text.new.items
            ≡ text.old.items ++ written_literal (written self.now) value.now) }
        ensures known { IfOk result (λ done.
            IsKnownUnlessFloat (written self.now) (IsKnown self.now) value.now) }
        ensures kept { OnErr result (text.new.items ≡ text.old.items) };
}

// Literals: floats have none.
impl<F: LiteralForm> ValueForm for F {
    ghost written = { λ form. F.literal form };

    ghost IsKnown = { λ form. F.IsKnown form };

    fn push(&self, text: &mut Vec<u8>, value: &Value) -> Result<(), AllocError> {
        push_literal(text, value, self)
    }
}

/// A mark for each value, for a prepared statement.
pub(crate) struct Marks;

impl ValueForm for Marks {
    ghost written = { λ form value. Some (codes "?") };

    ghost IsKnown = { λ form value text. ⊤ };

    fn push(&self, text: &mut Vec<u8>, value: &Value) -> Result<(), AllocError> {
        text.push(b'?')?;
        Ok(())
    }
}
