//! The turn of a call.

ghost use Rattle.std.specs.Prelude.{◌≡◌, List};
ghost use Rattle.method.specs.declared.program.Program.{Program as AProgram};
ghost use Rattle.method.specs.Machine.{Remaining as AnItem, and_receive};
ghost use Rattle.machine_turns.specs.Turns.{TurnsAs, HasPlace, Receives, Enters, place_given, put_onto, calling};

use crate::activation::{Activation, Remaining};
use crate::checks::{check_requires, check_writes};
use crate::code::{begin, function_of};
use crate::turn::{Here, Turn};
use int_ranges::ctype::CType;
use machine_objects::progress::Place;
use machine_ownership::spawn::callee;
use machine_values::stop::Stop;
use machine_values::values::referent;
use method::program::{Expr, FunctionInfo, Receiver, Target};
use object_types::values::Value;
use std::alloc::Global;

/// A left side, worked out.
fn target_place(
    alloc: Global,
    here: &Here<'_, '_>,
    line: u32,
    target: &Target,
) -> Result<Place, Stop>
    ensures { HasPlace result here.now line target.now }
{
    match target {
        Target::Local(i) => Ok(Place::InLocal(*i)),
        Target::FieldOf(e, f) => {
            let v = here.value(alloc, line, e)?;
            Ok(Place::InField(referent(v), *f))
        }
    }
}

/// The place of a call's value, if it is wanted.
fn receiver_place(
    alloc: Global,
    here: &Here<'_, '_>,
    line: u32,
    to: &Receiver,
) -> Result<Option<Place>, Stop>
    ensures { Receives result here.now line to.now }
{
    match to {
        Receiver::Nobody => Ok(None),
        Receiver::NewVariable(i) => Ok(Some(Place::InLocal(*i))),
        Receiver::Place(target) => {
            let place = target_place(alloc, here, line, target)?;
            Ok(Some(place))
        }
    }
}

/// The store of a call's value, if it is wanted.
fn receipt<'p>(line: u32, place: Option<Place>, ty: Option<CType>) -> Option<Remaining<'p>>
    ensures { (p : AProgram) (xs : List AnItem) → put_onto result xs ≡ and_receive p line ty (place_given place) xs }
{
    match place {
        Some(place) => Some(Remaining::Receive(line, place, ty)),
        None => None,
    }
}

/// The function that is called with these arguments, about to run; its contract's checks come first.
fn enter<'p>(
    alloc: Global,
    here: &Here<'_, 'p>,
    line: u32,
    number: u32,
    function: &'p FunctionInfo,
    args: &[Value],
) -> Result<Activation<'p>, Stop>
    ensures { Enters result here.now line number function.now args.now }
{
    check_requires(alloc, here, line, function, args)?;
    check_writes(alloc, here, line, function, args)?;
    let context = callee(
        alloc,
        here.program,
        number,
        function,
        here.context.me,
        here.heap,
        args,
    )?;
    begin(alloc, function, context)
}

/// The turn of a call.
pub fn call_turn<'p>(
    alloc: Global,
    here: &Here<'_, 'p>,
    line: u32,
    to: &Receiver,
    ty: Option<CType>,
    number: u32,
    es: &[Expr],
) -> Result<Turn<'p>, Stop>
    ensures { TurnsAs result here.now (calling here.now.next_thread line to.now ty number es.now) }
{
    let place = receiver_place(alloc, here, line, to)?;
    let args = here.values(alloc, line, es)?;
    let Some(function) = function_of(here.program, number) else {
        return Err(Stop::Misfit);
    };
    let entered = enter(alloc, here, line, number, function, &args)?;
    Ok(Turn::called(alloc, line, receipt(line, place, ty), entered))
}
