//! The fields of block 4, or what is wrong with its lines and characters.

ghost use Rattle.std.specs.Prelude.{◌≡◌, ◌≤◌, IfErr, IfOk, None, OnOk, length};
ghost use Rattle.corr_text.specs.Lines.{lines_of};
ghost use Rattle.fin_fields.specs.Fields.{fields_of, most_text_lines};
ghost use Rattle.fin_layout.specs.Reading.{Tells};
ghost use Rattle.fin_message.specs.inner.Answers.{fault_of_fields};
ghost use Rattle.fin_message.specs.Verdict.{line_test};

use crate::codes::{P20, P21};
use corr_text::{Fault, List};
use fin_fields::{FieldFault, FieldLines, cut_lines};
use fin_layout::MtFault;
use std::alloc::Global;

fn refuse(fault: FieldFault) -> MtFault
    ensures { result ≡ fault_of_fields fault }
{
    match fault {
        FieldFault::P20 { line } => MtFault::Bad(Fault {
            code: P20,
            tag: *b"B4 ",
            nth: line,
        }),
        FieldFault::P21 { tag, nth } => MtFault::Bad(Fault {
            code: P21,
            tag,
            nth,
        }),
        FieldFault::Memory => MtFault::Memory,
    }
}

/// The fields of a text. `Bad`: the first line that is none of a field (P20), else the first field with a character
/// outside X (P21).
pub fn read_fields(alloc: Global, text: &[u8]) -> Result<List<FieldLines<'_>>, MtFault>
    requires { length (lines_of text.now) ≤ most_text_lines }
    ensures value { IfOk result (λ fields. fields ≡ fields_of text.now) }
    ensures few { IfOk result (λ fields. length fields ≤ most_text_lines) }
    ensures sound { OnOk result (line_test text.now ≡ None) }
    ensures fault { IfErr result (Tells (line_test text.now)) }
{
    match cut_lines(alloc, text) {
        Ok(fields) => Ok(fields),
        Err(fault) => Err(refuse(fault)),
    }
}
