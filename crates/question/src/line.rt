ghost use Rattle.std.specs.Prelude.{◌≡◌, Ok, MatchResult};
ghost use Rattle.question.specs.Asking.{number_of, claims_of, asks, asked_by, Told};
ghost use Rattle.question.specs.Stretches.{words_of};

use crate::chosen::ChosenRule;
use crate::fault::Fault;
use crate::stretch::Words;
use std::alloc::Global;

// A total to be shared over claims by a rule.
#[derive(Drop)]
pub struct Question {
    pub rule: ChosenRule,
    pub total: u64,
    pub claims: Vec<u64>,
}

// The number that a word writes in decimal digits.
// Kept: the library's parse takes a plus sign, which is no digit here, and text, which a line need not be.
fn number(word: &[u8]) -> Option<u64>
    ensures { result ≡ number_of word.now }
{
    if word.is_empty() {
        return None;
    }
    let mut value: u64 = 0;
    for byte in word {
        if !byte.is_ascii_digit() {
            return None;
        }
        let tens = value.checked_mul(10)?;
        value = tens.checked_add(u64::from(*byte - b'0'))?;
    }
    Some(value)
}

fn read_claims(heap: Global, words: Words<'_>) -> Result<Vec<u64>, Fault>
    ensures { MatchResult result (λ v. claims_of 0 (words_of words.entry.text.now) ≡ Ok v.items) (λ e. Told e (claims_of 0 (words_of words.entry.text.now))) }
{
    let mut claims = Vec::new(heap);
    for word in words {
        let claim = number(word).ok_or(Fault::BadClaim(claims.len()))?;
        claims.push(claim)?;
    }
    Ok(claims)
}

// The question that a line asks, none where it is blank or a comment, or what is wrong with it.
pub fn read_question(heap: Global, line: &[u8]) -> Result<Option<Question>, Fault>
    ensures { MatchResult result (λ q. asked_by (words_of line.now) ≡ Ok (asks q)) (λ e. Told e (asked_by (words_of line.now))) }
{
    let mut words = Words { text: line };
    let name = match words.next() {
        None | Some([b'#', ..]) => return Ok(None),
        Some(name) => name,
    };
    let rule = ChosenRule::try_from(name)?;
    let word = words.next().ok_or(Fault::NoTotal)?;
    let total = number(word).ok_or(Fault::BadTotal)?;
    let claims = read_claims(heap, words)?;
    Ok(Some(Question {
        rule,
        total,
        claims,
    }))
}
