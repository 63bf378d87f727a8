//! The line of a step.
ghost use Rattle.std.specs.Prelude.{◌≡◌, ◌++◌, OnOk, OnErr, length};
ghost use Rattle.flt_life_model.specs.Answers.{IsAnswerWithin, told_of};
ghost use Rattle.flt_report.specs.Answer.{step_line};
ghost use Rattle.flt_step.specs.Puts.{GrowsByFront};

use crate::answer::put_answer;
use flt_life_model::KeptAnswer;
use flt_step::{Step, put_words};
use std::alloc::AllocError;

/// Puts the line of a step: its words, ` -> ` and its answer, whose response lies among these bytes. Where memory is short it
/// puts a front of the line.
pub fn put_step(
    step: &Step,
    answer: &KeptAnswer,
    responses: &[u8],
    out: &mut Vec<u8>,
) -> Result<(), AllocError>
    requires { IsAnswerWithin (length responses.now) answer.now }
    ensures ok { OnOk result (out.new.items ≡ out.old.items ++ step_line step.now (told_of responses.now answer.now)) }
    ensures err { OnErr result (GrowsByFront out.old.items out.new.items (step_line step.now (told_of responses.now answer.now))) }
{
    put_words(step, out)?;
    put_answer(answer, responses, out)
}
