//! The number of blocks that an application's program gives back.

ghost use Rattle.std.specs.Prelude.{◌≡◌, ◌<◌, ◌≤◌, ◌^◌, ℕ, length};
ghost use Rattle.app_program.specs.Programs.{line_reclaims, program_reclaims};
ghost use Rattle.run_plan.specs.Plans.{HasProgram};
ghost use Rattle.service_wiring.specs.Wired.{programmed_reclaims};

use app_program::{Program, ProgramLine};
use run_plan::Role;

// The number of block numbers that the program gives back, whether they name blocks that the application holds or
// not.
pub(crate) fn programmed(role: &Role) -> u64
    requires { (words : ℕ) × HasProgram words role.now }
    ensures count { result ≡ programmed_reclaims role.now }
    ensures few { result < 2 ^ 63 }
{
    match role {
        Role::Client(program) => reclaims_in(program),
        Role::Server(_) | Role::Echo => 0,
    }
}

// The number of lines of a program that give a block back.
fn reclaims_in(program: &Program) -> u64
    requires { length program.now < 2 ^ 63 }
    ensures count { result ≡ length (program_reclaims program.now) }
    ensures few { result ≤ length program.now }
{
    let lines = program.as_slice();
    let mut count = 0;
    for line in lines {
        count += reclaim_count(line);
    }
    count
}

// 1 if the line gives a block back, else 0.
fn reclaim_count(line: &ProgramLine) -> u64
    ensures count { result ≡ length (line_reclaims line.now) }
    ensures few { result ≤ 1 }
{
    match line {
        ProgramLine::Reclaim { .. } => 1,
        _ => 0,
    }
}
