//! The program for each form of its words.

ghost use Rattle.std.specs.Prelude.{◌≡◌, ◌≤◌, None, ⊤};
ghost use Rattle.argo_outside.specs.Faults.{Rose};
ghost use Rattle.argo_outside.specs.Sink.{appended};
ghost use Rattle.argo_check.specs.Answers.{usage_text};
ghost use Rattle.argo_check.specs.Ends.{IsChecked, IsCutShort, IsLeftOff, IsTextCutShort, IfAnswer, IfUsage, IfSourceFault, IfSinkFault, IfNoMemory, AgreesWith, AnswersWhereNothingFails, IsUsageOrSinkFault, form_in, HasForm};

use crate::CheckStatus;
use crate::input::{check_input, read_input};
use crate::said::tell;
use crate::words::{Form, form_of};
use argo_outside::{Sink, Source};
use std::alloc::Global;

/// Does all that the program does, for its words after its name.
///
/// It always returns, where the calls of its source and its sink do.
pub fn check<S: Source, K: Sink>(
    alloc: Global,
    words: &Vec<String>,
    src: &mut S,
    out: &mut K,
) -> CheckStatus
    ensures source { S.faults src.old ≤ S.faults src.new }
    ensures sink { K.faults out.old ≤ K.faults out.new }
    ensures answer { IfAnswer result (HasForm words.now (λ form. IsChecked form (S.left src.old)
        (S.left src.new) (K.written out.old) (K.written out.new) result)) }
    ensures usage { IfUsage result (form_in words.now ≡ None) }
    ensures usage_whole { IfUsage result
        (K.written out.new ≡ appended (K.written out.old) usage_text) }
    ensures wrong_words { form_in words.now ≡ None → IsUsageOrSinkFault result }
    ensures wrong_words_unread { form_in words.now ≡ None → src.new ≡ src.old }
    ensures source_fault { IfSourceFault result (Rose (S.faults src.old) (S.faults src.new)) }
    ensures source_fault_nothing { IfSourceFault result (K.written out.new ≡ K.written out.old) }
    ensures source_fault_count { IfSourceFault result (K.faults out.new ≡ K.faults out.old) }
    ensures sink_fault { IfSinkFault result (Rose (K.faults out.old) (K.faults out.new)) }
    ensures sink_fault_cut { IfSinkFault result
        (IsTextCutShort (form_in words.now) (S.left src.old) (S.left src.new) (K.written out.old)
        (K.written out.new)) }
    ensures no_memory { IfNoMemory result (HasForm words.now (λ form. IsLeftOff form
        (S.left src.old) (S.left src.new) (K.written out.old) (K.written out.new))) }
    ensures agrees { HasForm words.now (λ form. ⊤)
        → HasForm words.now (λ form. AgreesWith form (S.left src.old) result) }
    ensures complete { HasForm words.now (λ form. ⊤)
        → AnswersWhereNothingFails (Rose (S.faults src.old) (S.faults src.new))
        (Rose (K.faults out.old) (K.faults out.new)) result }
{
    match form_of(words) {
        Some(form) => check_source(alloc, form, src, out),
        None => tell(out, b"usage: argo_check [why V K]\n", CheckStatus::Usage),
    }
}

// Reads an input and checks it.
fn check_source<S: Source, K: Sink>(
    alloc: Global,
    form: Form,
    src: &mut S,
    out: &mut K,
) -> CheckStatus
    ensures source { S.faults src.old ≤ S.faults src.new }
    ensures sink { K.faults out.old ≤ K.faults out.new }
    ensures answer { IfAnswer result (IsChecked form (S.left src.old) (S.left src.new)
        (K.written out.old) (K.written out.new) result) }
    ensures usage { IfUsage result ⊥ }
    ensures source_fault { IfSourceFault result (Rose (S.faults src.old) (S.faults src.new)) }
    ensures source_fault_nothing { IfSourceFault result (K.written out.new ≡ K.written out.old) }
    ensures source_fault_count { IfSourceFault result (K.faults out.new ≡ K.faults out.old) }
    ensures sink_fault { IfSinkFault result (Rose (K.faults out.old) (K.faults out.new)) }
    ensures sink_fault_cut { IfSinkFault result (IsCutShort form (S.left src.old) (S.left src.new)
        (K.written out.old) (K.written out.new)) }
    ensures no_memory { IfNoMemory result (IsLeftOff form (S.left src.old) (S.left src.new)
        (K.written out.old) (K.written out.new)) }
    ensures agrees { AgreesWith form (S.left src.old) result }
{
    match read_input(alloc, src) {
        Ok(input) => check_input(alloc, form, input.as_slice(), out),
        Err(status) => status,
    }
}
