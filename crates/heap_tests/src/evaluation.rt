//! Expressions, invariants and what a claim was made with: each call answers. What it answers is proved, and `value_rows` shows what
//! that means.

use int_ranges::exact::Wide;
use invariants::invariant::{claim_holds, inv_holds};
use method::program::{Program, Spec};
use object_types::heap::Heap;
use object_types::references::Ref;
use object_types::values::Value;
use spec_eval::env::{Env, EvalFault};
use spec_eval::eval::{entry_holds, eval, holds, holds_of};
use std::alloc::{AllocError, Global};
use std::test::Fail;

const ME: Ref = Ref { ty: 1, serial: 1 };

const K: Ref = Ref { ty: 2, serial: 1 };

const A: Ref = Ref { ty: 3, serial: 1 };

fn env(alloc: Global) -> Env {
    Env {
        thread: ME,
        this: A,
        locals: Vec::new(alloc),
        entry: Vec::new(alloc),
        result: Value::Int(0),
    }
}

/// Whether the answer is that it holds.
fn is_true(answer: Result<bool, EvalFault>) -> bool {
    match answer {
        Ok(holds) => holds,
        Err(_) => false,
    }
}

/// Whether each call answers, and says that what is asked holds.
fn all_answer(program: &Program, heap: &Heap, env: &Env, this: &Spec) -> bool {
    let Some(entry) = heap.shapes(K).first() else {
        return false;
    };
    eval(program, this, heap, heap, env) == Ok(Value::Ref(A))
        && is_true(holds(program, this, heap, heap, env))
        && is_true(holds_of(program, this, heap, heap, A))
        && is_true(entry_holds(program, heap, entry))
        && is_true(claim_holds(program, K, heap))
        && is_true(inv_holds(program, A, heap, heap))
}

/// Whether each call answers of a heap in which K was made with a conjunct.
pub fn answers(alloc: Global, program: &Program, heap: &Heap) -> Result<bool, AllocError> {
    let this = Box::new(alloc, Spec::This)?;
    Ok(all_answer(program, heap, &env(alloc), &this))
}

#[test]
fn faults_say_why(rt: HostRuntime) -> Result<(), Fail> {
    let wide = EvalFault::Wide(Wide { a: i128::MAX, b: 1 });
    let memory = EvalFault::OutOfMemory;
    let text = format!(in rt.alloc(); "{wide}; {memory}")?;
    assert!(rt;
        text.as_str()
            == "the exact result of 170141183460469231731687303715884105727 and 1 leaves 128 bits; out of memory"
    );
    Ok(())
}
