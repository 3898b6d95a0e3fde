ghost use Rattle.std.specs.Prelude.{◌≡◌, ℕ, List, ◌<◌, ◌≤◌, length, IfOk, IfSome, OnErr};
ghost use Rattle.std.specs.Result.{result_ok};
ghost use Rattle.ics_text.specs.ScanSteps.{BeforeParam, BeforeValue, AfterQuotes, colon_from};
ghost use Rattle.ics_text.specs.Inner.Runs.{colon_behind, past};
ghost use Rattle.ics_text.specs.ContentLines.{IsContent, content_of};

use crate::bytes::{COLON, COMMA, EQUALS, QUOTE, SEMICOLON, name_len, plain_len, quoted_len};
use crate::fault::BadLine;
use crate::parts::Content;

/// The name, the parameters and the value of an unfolded line (RFC 5545, section 3.1). `BadLine` if it is not a content line.
pub fn content<'a>(line: &'a [u8]) -> Result<Content<'a>, BadLine>
    ensures parts { IfOk result (λ c. IsContent line.now c.name c.params c.value) }
    // At most one reading fits a line.
    ensures only { IfOk result (λ c. (name params value : List ℕ) → IsContent line.now name params value →
        (name ≡ c.name) × (params ≡ c.params) × (value ≡ c.value)) }
    ensures refused { OnErr result ((name params value : List ℕ) → IsContent line.now name params value → ⊥) }
    ensures computes { result_ok result ≡ content_of line.now }
{
    let len = name_len(line);
    if len == 0 {
        return Err(BadLine);
    }
    let (name, behind) = line.split_at(len);
    // most lines have no parameters
    if let [COLON, value @ ..] = behind {
        let params = &behind[..0];
        return Ok(Content {
            name,
            params,
            value,
        });
    }
    let Some(colon) = colon_of(behind) else {
        return Err(BadLine);
    };
    Ok(Content {
        name,
        params: &behind[..colon],
        value: &behind[colon + 1..],
    })
}

/// The position of the colon before the value, in the text after the name.
fn colon_of(text: &[u8]) -> Option<usize>
    ensures value { result ≡ colon_behind text.now }
    ensures within { IfSome result (λ k. k < length text.now) }
{
    let mut at = 0;
    while let [SEMICOLON, param @ ..] = &text[at..] {
        at += 1 + param_len(param)?;
    }
    match &text[at..] {
        [COLON, ..] => Some(at),
        _ => None,
    }
}

/// The length of the parameter that begins the text, which is given without the `;`. None if no parameter does.
#[tactic(auto, using(crate::proofs::Walks::no_param_name))]
fn param_len(text: &[u8]) -> Option<usize>
    ensures value { colon_from text.now BeforeParam ≡ past colon_behind text.now result }
    ensures within { IfSome result (λ len. len ≤ length text.now) }
{
    let name = name_len(text);
    if name == 0 {
        return None;
    }
    match &text[name..] {
        [EQUALS, values @ ..] => Some(name + 1 + values_len(values)?),
        _ => None,
    }
}

/// The length of the values that begin the text, with the commas between them. None if one of them begins with a quote and has no second one.
fn values_len(text: &[u8]) -> Option<usize>
    ensures value { colon_from text.now BeforeValue ≡ past colon_behind text.now result }
    ensures within { IfSome result (λ len. len ≤ length text.now) }
{
    let mut at = value_len(text)?;
    while let [COMMA, value @ ..] = &text[at..] {
        at += 1 + value_len(value)?;
    }
    Some(at)
}

/// The length of the value that begins the text, with its quotes. None if it begins with a quote and has no second one.
#[tactic(auto, using(crate::proofs::Walks::plain_value))]
fn value_len(text: &[u8]) -> Option<usize>
    ensures value { colon_from text.now BeforeValue ≡ past (λ rest. colon_from rest AfterQuotes) text.now result }
    ensures within { IfSome result (λ len. len ≤ length text.now) }
{
    let [QUOTE, quoted @ ..] = text else {
        return Some(plain_len(text));
    };
    let len = quoted_len(quoted);
    match &quoted[len..] {
        [QUOTE, ..] => Some(len + 2),
        _ => None,
    }
}
