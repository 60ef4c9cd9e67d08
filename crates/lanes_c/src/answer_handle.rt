//! C's handle of an answer.
ghost use Rattle.std.specs.Prelude.{◌≡◌, MatchOption};
ghost use Rattle.std.specs.Coded.{coded_option};
ghost use Rattle.std.specs.declared.option.Option.{Option as Maybe};
ghost use Rattle.std.specs.declared.option.Option.TheVariants.{None as Closed, Some as Open};
ghost use Rattle.table_model.specs.Answer.{AnswerParts};
ghost use Rattle.lanes_c.specs.AnswerHandles.{answer_owns, coded_answer};

use crate::loose::Loose;
use std::alloc::Global;
use std::boxed::Box;
use std::marker::Model;
use table_model::Answer;

/// A handle: a null pointer if it is closed, and else the pointer of a box, which has an answer.
///
/// It is no `Drop`, so a call that loses an open handle is refused by the check.
#[repr(C)]
pub struct KeptAnswer {
    at: *mut u8,
    pub ghost answer: { Maybe AnswerParts } by { coded_option coded_answer },
}

impl Model for KeptAnswer {
    ghost also_owns = { λ k. answer_owns k.at k.answer };
}

impl KeptAnswer {
    /// A closed handle.
    pub fn closed() -> KeptAnswer
        ensures { result.answer ≡ Closed }
    {
        KeptAnswer {
            at: std::ptr::null_mut(),
        }
    }

    /// The handle of a box that was taken apart.
    fn of(answer: Loose<Answer, Global>) -> KeptAnswer
        ensures { result.answer ≡ Open answer.value }
    {
        let Loose { at, alloc: _ } = answer;
        KeptAnswer { at: at as *mut u8 }
    }

    /// The box of a handle, taken apart; none if the handle is closed.
    fn into_loose(self, alloc: Global) -> Option<Loose<Answer, Global>>
        ensures { MatchOption result (self.answer ≡ Closed) (λ answer. self.answer ≡ Open answer.value) }
    {
        let KeptAnswer { at } = self;
        if at == std::ptr::null_mut() {
            None
        } else {
            let at = at as *mut Answer;
            Some(Loose { at, alloc })
        }
    }

    /// The open handle of a box.
    pub fn of_box(answer: Box<Answer>) -> KeptAnswer
        ensures { result.answer ≡ Open answer.value }
    {
        KeptAnswer::of(Loose::of(answer))
    }

    /// The box of a handle; none if the handle is closed.
    pub fn into_box(self, alloc: Global) -> Option<Box<Answer>>
        ensures { MatchOption result (self.answer ≡ Closed) (λ answer. self.answer ≡ Open answer.value) }
    {
        match self.into_loose(alloc) {
            None => None,
            Some(loose) => Some(loose.into_box()),
        }
    }
}
