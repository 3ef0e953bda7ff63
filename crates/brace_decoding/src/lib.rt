// Reading BRACE: the text of a label, in units.
#![tactic(auto)]

mod decoding;

ghost use Rattle.std.specs.Prelude.{◌≡◌, length};
ghost use Rattle.basis.specs.Outcome.{buffer_after};
ghost use Rattle.utf16.specs.Answer.{units_outcome};
ghost use Rattle.brace_text.specs.Decoding.{text_of};
ghost use Rattle.brace_decoding.specs.Answer.{decode_outcome};

use basis::Refusal;
use utf16::UnitCount;

// Reads the text of a label.
pub fn decode(label: &[u8], units: &mut [u16]) -> Result<UnitCount, Refusal>
    ensures result_value { units_outcome result ≡ decode_outcome (length units.old) label.now }
    ensures units_after { units.new ≡ buffer_after (decode_outcome (length units.old) label.now) (text_of label.now) units.old }
{
    labels::check_label(label.len(), units.len())?;
    if brace_format::signature::is_signed(label) {
        return decoding::decode_signed(label, units);
    }
    decoding::decode_plain(label, units)
}
