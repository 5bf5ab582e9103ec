// The program (section 9 of the rules): from the bytes of its input to those of its output.
#![tactic(auto)]

ghost use Rattle.rules.specs.Frames.{program};
ghost use Rattle.frames.specs.Output.{Shows, Prints};

mod input;
mod line;
mod print;
mod read;
mod solve;
mod text;

use checks::Refusal;
pub use text::Text;

// The longest text that is printed has fewer bytes.
pub const TEXT_BYTES: usize = 20480;

// What the program prints for an input.
#[tactic(auto, unfolding(rules::specs::Frames::refusal_line, rules::specs::Frames::frame, rules::specs::Frames::hex))]
pub fn answer(input: &[u8]) -> Text
    ensures { Shows result (program input.now) }
{
    let mut out = Text::new();
    if let Err(r) = outcome(input, &mut out) {
        out = Text::new();
        print::refusal(&mut out, r);
    }
    out
}

// The lines of a solution, or why there are none. The text is lent: in a Result its 20 KB would be zeroed and moved at each call.
#[tactic(auto, unfolding(rules::specs::Frames::program))]
fn outcome(input: &[u8], out: &mut Text) -> Result<(), Refusal>
    ensures { Prints result out.new (program input.now) }
{
    let x = read::read(input)?;
    solve::solve(&x, out)
}
