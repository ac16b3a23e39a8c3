ghost use Rattle.std.specs.Prelude.{◌≡◌, ◌^◌, ◌<◌, length, IfOk, vec_len, sum, MatchResult};
ghost use Rattle.question.specs.Asking.{asking};
ghost use Rattle.question.specs.Workings.{steps_of, Worked, Failed};
ghost use Rattle.question.specs.declared.working.Failure.TheVariants.{Declined, NoMemory as Short};

use crate::line::Question;
use sharing::{Refusal, Share};
use std::alloc::{AllocError, Global};

// One claim and its part, with the running sums.
#[derive(Clone, Copy, PartialEq, Eq, Debug)]
pub struct Step {
    pub claim: u64,
    // The sum of the claims up to this one.
    pub sum: u64,
    pub part: u64,
    // The sum of the parts up to this one.
    pub given: u64,
}

// Why a question is not worked out.
#[derive(Clone, Copy, PartialEq, Eq, Debug)]
pub enum Failure {
    Declined(Refusal),
    NoMemory,
}

impl From<Refusal> for Failure {
    ghost from_gives = { λ why r. r ≡ Declined why };

    fn from(why: Refusal) -> Failure {
        Failure::Declined(why)
    }
}

impl From<AllocError> for Failure {
    ghost from_gives = { λ _ r. r ≡ Short };

    fn from(_error: AllocError) -> Failure {
        Failure::NoMemory
    }
}

// The sum of the claims, which may pass 64 bits where the question is declined.
pub fn claimed_in_all(claims: &[u64]) -> u128
    ensures { result ≡ sum claims.now }
{
    claims.iter().map(|claim| u128::from(*claim)).sum()
}

fn steps(heap: Global, claims: &[u64], parts: &[u64]) -> Result<Vec<Step>, AllocError>
    requires long { length claims.now ≡ length parts.now }
    requires claimed { sum claims.now < 2 ^ 64 }
    requires given { sum parts.now < 2 ^ 64 }
    ensures { IfOk result (λ v. v.items ≡ steps_of claims.now parts.now) }
{
    let mut steps = Vec::new(heap);
    let mut sum: u64 = 0;
    let mut given: u64 = 0;
    for (claim, part) in claims.iter().zip(parts) {
        sum += *claim;
        given += *part;
        steps.push(Step {
            claim: *claim,
            sum,
            part: *part,
            given,
        })?;
    }
    Ok(steps)
}

fn work_out_into(heap: Global, question: &Question, parts: &mut [u64]) -> Result<Vec<Step>, Failure>
    requires { length parts.old ≡ vec_len question.now.claims }
    ensures { MatchResult result (λ v. Worked (asking question.now) v.items) (λ e. Failed (asking question.now) e) }
{
    let claims = question.claims.as_slice();
    question.rule.share(claims, question.total, parts)?;
    Ok(steps(heap, claims, parts)?)
}

// The steps of a share, or why there are none.
pub fn work_out(heap: Global, question: &Question) -> Result<Vec<Step>, Failure>
    ensures { MatchResult result (λ v. Worked (asking question.now) v.items) (λ e. Failed (asking question.now) e) }
{
    let mut parts = vec![in heap; 0; question.claims.len()]?;
    work_out_into(heap, question, parts.as_mut_slice())
}
