// Runs the known problems (R10.1 to R10.13), in their order, and prints what build, weigh and translate answer.
#![tactic(auto)]

use formulas::{translate, weigh};
use scaling::build;
use std::io;

// A problem as it is lent.
#[derive(Clone, Copy)]
struct Problem {
    m: u32,
    n: u32,
    matrix: &'static [i32],
    moduli: &'static [i32],
}

// What is asked of a problem: its build, or a monomial's weights and translation.
#[derive(Clone, Copy)]
enum Ask {
    Build(Problem),
    Monomial(Problem, &'static [i32]),
}

const FOUR: Problem = Problem {
    m: 1,
    n: 2,
    matrix: &[1, 2],
    moduli: &[0],
};

const FIVE: Problem = Problem {
    m: 1,
    n: 3,
    matrix: &[1, 2, 0],
    moduli: &[3],
};

const THIRTEEN: Problem = Problem {
    m: 1,
    n: 2,
    matrix: &[1000, 0],
    moduli: &[0],
};

// What is asked, problem after problem.
const ASKED: [&'static [Ask]; 13] = [
    &[Ask::Build(Problem {
        m: 1,
        n: 1,
        matrix: &[0],
        moduli: &[0],
    })],
    &[Ask::Build(Problem {
        m: 1,
        n: 1,
        matrix: &[-5],
        moduli: &[0],
    })],
    &[Ask::Build(Problem {
        m: 1,
        n: 1,
        matrix: &[0],
        moduli: &[1],
    })],
    &[Ask::Build(FOUR), Ask::Monomial(FOUR, &[-4, 2])],
    &[Ask::Build(FIVE)],
    &[Ask::Monomial(FIVE, &[2, 2, 1])],
    &[Ask::Monomial(FIVE, &[1, 0, 0])],
    &[Ask::Build(Problem {
        m: 2,
        n: 5,
        matrix: &[6, 0, -4, 1, 3, 0, 3, 1, -4, 3],
        moduli: &[0, 0],
    })],
    &[Ask::Build(Problem {
        m: 3,
        n: 4,
        matrix: &[1000, -1, 0, 0, 0, 1000, -1, 0, 0, 0, 1000, -1],
        moduli: &[0, 0, 0],
    })],
    &[Ask::Build(Problem {
        m: 4,
        n: 5,
        matrix: &[
            1000, -1, 0, 0, 0, 0, 1000, -1, 0, 0, 0, 0, 1000, -1, 0, 0, 0, 0, 1000, -1,
        ],
        moduli: &[0, 0, 0, 0],
    })],
    &[Ask::Build(Problem {
        m: 2,
        n: 3,
        matrix: &[4, -1, -3, -1, 4, -3],
        moduli: &[6, 3],
    })],
    &[Ask::Build(Problem {
        m: 3,
        n: 9,
        matrix: &[
            -1, 0, 0, -1, -1, 0, 1, 0, 0, 0, 1, 1, 0, 1, 1, 0, 1, 0, 0, -1, 0, 0, -1, 0, 0, 0, 1,
        ],
        moduli: &[0, 0, 0],
    })],
    &[
        Ask::Build(THIRTEEN),
        Ask::Build(Problem {
            m: 1,
            n: 2,
            matrix: &[0, 1001],
            moduli: &[0],
        }),
        Ask::Monomial(THIRTEEN, &[0, 10000]),
        Ask::Monomial(THIRTEEN, &[0, 10001]),
    ],
];

// `as` below: std has no From of u32 for usize.

// The first `width` numbers, in a line behind their name.
fn line(rt: &impl Print, name: &str, xs: &[i32], width: usize) -> io::Result<()> {
    print!(rt; "{name}")?;
    for x in xs.iter().take(width) {
        print!(rt; " {x}")?;
    }
    println!(rt; "")
}

// The first `height` rows of so many numbers; `chunks` takes no width of 0.
fn table(rt: &impl Print, name: &str, xs: &[i32], height: usize, width: usize) -> io::Result<()> {
    for row in xs.chunks(width.max(1)).take(height) {
        line(rt, name, row, width)?;
    }
    Ok(())
}

impl Problem {
    // The build's answer, and H, V and W.
    fn show(&self, rt: &impl Print) -> io::Result<()> {
        let mut h = [0; 192];
        let mut v = [0; 576];
        let mut w = [0; 576];
        match build(
            self.m,
            self.n,
            self.matrix,
            self.moduli,
            &mut h,
            &mut v,
            &mut w,
        ) {
            Err(e) => println!(rt; "{e}"),
            Ok(b) => {
                println!(rt; "rank {} moduli {} steps {}", b.rank, b.moduli, b.steps)?;
                let cols = self.n as usize + b.moduli as usize;
                table(rt, "H", &h, self.m as usize, cols)?;
                table(rt, "V", &v, cols, cols)?;
                table(rt, "W", &w, cols, cols)
            }
        }
    }

    // A monomial's weights, and its translation.
    fn tell(&self, rt: &impl Print, exponents: &[i32]) -> io::Result<()> {
        let mut weights = [0; 8];
        match weigh(
            self.m,
            self.n,
            self.matrix,
            self.moduli,
            exponents,
            &mut weights,
        ) {
            Err(e) => println!(rt; "weights {e}")?,
            Ok(()) => line(rt, "weights", &weights, self.m as usize)?,
        }
        let mut kept = [0; 64];
        let mut translated = [0; 1024];
        match translate(
            self.m,
            self.n,
            self.matrix,
            self.moduli,
            &[1],
            exponents,
            &mut kept,
            &mut translated,
        ) {
            Err(e) => println!(rt; "{e}"),
            Ok(d) => line(rt, "translated", &translated, d as usize),
        }
    }
}

fn main(rt: HostRuntime) -> io::Result<()> {
    for (i, asked) in ASKED.iter().enumerate() {
        println!(rt; "{}", i + 1)?;
        for ask in *asked {
            match ask {
                Ask::Build(p) => p.show(&rt)?,
                Ask::Monomial(p, exponents) => p.tell(&rt, exponents)?,
            }
        }
    }
    Ok(())
}
