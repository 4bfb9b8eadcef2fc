//! Programs of a few lines.

ghost use Rattle.std.specs.Prelude.{◌≡◌, ◌≤◌, ◌+◌, All, length};
ghost use Rattle.app_program.specs.Programs.{IsClientLine, IsClientProgram, IsServerProgram, line_stores, program_stores};
ghost use Rattle.tests_threads.specs.declared.apps.port.TheConstants.{WORDS};

use app_program::{Program, ProgramLine};
use std::alloc::Global;
use std::process::Abort;

// One more line of a client.
fn add(rt: &impl Abort, program: &mut Program, line: ProgramLine)
    requires line { IsClientLine WORDS line }
    requires few { length (line_stores line) ≤ 2 }
    requires lines { All (IsClientLine WORDS) program.old }
    ensures lines { All (IsClientLine WORDS) program.new }
    ensures length { length program.new ≡ length program.old + 1 }
    ensures stores { length (program_stores program.new) ≤ length (program_stores program.old) + 2 }
{
    program.push(line).expect(rt, "memory");
}

// A store, a request with what was stored, and the return of a block that the client doesn't have.
pub(crate) fn one_call(rt: &impl Abort, alloc: Global) -> Program
    ensures { IsClientProgram WORDS result }
{
    let mut program = Program::new(alloc);
    add(
        rt,
        &mut program,
        ProgramLine::Store {
            place: 2,
            value: 150,
        },
    );
    add(rt, &mut program, SUBMIT);
    add(rt, &mut program, RECLAIM);
    program
}

pub(crate) const SUBMIT: ProgramLine = ProgramLine::Submit { method: 0, addr: 2 };

pub(crate) const RECLAIM: ProgramLine = ProgramLine::Reclaim { block: 7 };

// A line of a client, once.
pub(crate) fn once(rt: &impl Abort, alloc: Global, line: ProgramLine) -> Program
    requires line { IsClientLine WORDS line }
    requires few { length (line_stores line) ≤ 2 }
    ensures { IsClientProgram WORDS result }
{
    let mut program = Program::new(alloc);
    add(rt, &mut program, line);
    program
}

// Like `once`, twice.
pub(crate) fn twice(rt: &impl Abort, alloc: Global, line: ProgramLine) -> Program
    requires line { IsClientLine WORDS line }
    requires few { length (line_stores line) ≤ 2 }
    ensures { IsClientProgram WORDS result }
{
    let mut program = Program::new(alloc);
    add(rt, &mut program, line);
    add(rt, &mut program, line);
    program
}

// A server whose replies are at place 2, after a store there.
pub(crate) fn one_reply(rt: &impl Abort, alloc: Global) -> Program
    ensures { IsServerProgram WORDS result }
{
    let mut program = Program::new(alloc);
    let store = ProgramLine::Store {
        place: 2,
        value: 5000,
    };
    program.push(store).expect(rt, "memory");
    program
        .push(ProgramLine::Reply { addr: 2 })
        .expect(rt, "memory");
    program
}
