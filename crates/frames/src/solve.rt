// From what was read to the output's text: the translation, the build, and the lines that tell them.
ghost use Rattle.std.specs.Prelude.{true};
ghost use Rattle.rules.specs.Calls.{translate_verdict};
ghost use Rattle.rules.specs.Frames.{answered};
ghost use Rattle.frames.specs.Input.{problem_in, formula_in};
ghost use Rattle.frames.specs.Output.{Shows, Prints, Room, solution_text};

use crate::Text;
use crate::input::Input;
use crate::print::{Kind, rows, sizes, terms};
use checks::{ROOM_COEFFICIENTS, ROOM_EXPONENTS, ROOM_H, ROOM_V, ROOM_W, Refusal};
use scaling::Built;

// All lines of a solution, which the first entries of the arrays are: what two calls wrote, for which a struct would be made once.
// `as` between u32 and usize: std has no From for them, and TryFrom would be a step that can fail; each is proved to lose nothing.
fn solution(
    x: &Input,
    built: Built,
    d: u32,
    h: &[i32],
    v: &[i32],
    w: &[i32],
    kept: &[i32],
    translated: &[i32],
    out: &mut Text,
)
    requires { Room x.now built d h.now v.now w.now kept.now translated.now }
    ensures { Shows out.new (solution_text x.now built d h.now v.now w.now kept.now translated.now) }
{
    let cols = x.n + built.moduli as usize;
    let count = x.coefficients.len();
    let d = d as usize;
    *out = Text::new();
    sizes(out, x.m as u32, x.n as u32, built);
    rows(out, Kind::H, &h[..x.m * cols], cols);
    rows(out, Kind::V, &v[..cols * cols], cols);
    rows(out, Kind::W, &w[..cols * cols], cols);
    terms(out, &kept[..count], &translated[..count * d], d);
}

// The lines of what was read, or why there are none.
pub fn solve(x: &Input, out: &mut Text) -> Result<(), Refusal>
    ensures { Prints result out.new (answered (problem_in x.now) (formula_in x.now)
        (translate_verdict (problem_in x.now) (formula_in x.now) true true)) }
{
    let m = x.m as u32;
    let n = x.n as u32;
    let mut kept = [0; ROOM_COEFFICIENTS];
    let mut translated = [0; ROOM_EXPONENTS];
    let d = formulas::translate(
        m,
        n,
        &x.matrix,
        &x.moduli,
        &x.coefficients,
        &x.exponents,
        &mut kept,
        &mut translated,
    )?;
    let mut h = [0; ROOM_H];
    let mut v = [0; ROOM_V];
    let mut w = [0; ROOM_W];
    let built = scaling::build(m, n, &x.matrix, &x.moduli, &mut h, &mut v, &mut w)?;
    solution(x, built, d, &h, &v, &w, &kept, &translated, out);
    Ok(())
}
