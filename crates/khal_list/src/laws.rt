//! Laws of requests.
ghost use Rattle.std.specs.Prelude.{ℤ, List, Result};
ghost use Rattle.clap.specs.Words.{Text};
ghost use Rattle.ics_zone.specs.ZoneSaid.{ZoneSaid};
ghost use Rattle.khal_words.specs.Entries.{entries_of};
ghost use Rattle.khal_list.specs.Agree.{Agree};
ghost use Rattle.khal_list.specs.RequestOf.{AnswerIn, RequestOf};
ghost use Rattle.khal_list.specs.declared.request.Request.{Request};
ghost use Rattle.khal_list.specs.declared.request_fault.RequestFault.{RequestFault};

use ics_series::{one_day_spelling, one_spelling};
use khal_words::one_format;

/// Words and a clock have one answer, one request or one fault, unless an allocation fails; and so have
/// words, what a display zone says, and a clock.
pub fn one_answer()
    ensures words { (words : List Text) (now : ℤ) (a b : Result Request RequestFault)
        → RequestOf words now a → RequestOf words now b → Agree words a b }
    ensures zone { (words : List Text) (zone : ZoneSaid) (now : ℤ) (a b : Result Request RequestFault)
        → AnswerIn (entries_of words) zone now a → AnswerIn (entries_of words) zone now b → Agree words a b }
{
    one_spelling();
    one_day_spelling();
    one_format();
}
