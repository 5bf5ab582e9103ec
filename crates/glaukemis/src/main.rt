// The program: the lines of R9.2 to R9.4 from standard input, those of R9.7 to R9.11 to standard output.
// The longest good input has 5,375 bytes, so that the first 5,376 of any input decide its answer.
#![tactic(auto)]

mod input;

fn main(rt: HostRuntime) {
    let mut input = [0; 5376];
    let held = input::read(&mut rt.stdin(), &mut input);
    let text = frames::answer(&input[..held.len]);
    if rt.write_all(&text).is_err() {
        let _ = rt.eprintln("the answer could not be written");
    }
}
