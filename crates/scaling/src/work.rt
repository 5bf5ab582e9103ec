// The work state, its three column steps, and the stages over them.
ghost use Rattle.scaling.specs.Sound.{Sound};

use crate::scan::{
    better, filled, floor_quotient, negative, next_pivot, other, pivot_row, quotient, unreduced,
};
use crate::strided::{add, negate, rotate, swap};
use checks::{ROOM_H, ROOM_V};

// T is m by cols, V and W are cols by cols, row after row without gaps; cols is N of R5.1.
// The flag `over` is part of the state by R13.2, and so are T, V, W and the count; so each step asks by a clause that the flag is down.
// The tables lie flat, as C lends the outputs that they are copied to.
#[derive(Drop)]
pub struct Work {
    pub m: usize,
    pub cols: usize,
    pub t: [i32; ROOM_H],
    pub v: [i32; ROOM_V],
    pub w: [i32; ROOM_V],
    pub steps: u64,
    pub over: bool,
    pub ghost sound: { Sound m cols t v w over },
}

// The table that a stage looks at: T in stage 1, V in stages 2 and 3.
#[derive(Clone, Copy)]
pub enum Table {
    T,
    V,
}

// A stage's state, and the number of columns that stay active.
#[derive(Drop)]
pub struct Progress {
    pub work: Work,
    pub a: usize,
}

impl Work {
    ghost use Rattle.std.specs.Prelude.{◌≡◌, ◌<◌, ◌≤◌, nat_abs};
    ghost use Rattle.rules.specs.Steps.{swap_step, negate_step, add_step};
    ghost use Rattle.rules.specs.Steps as steps;
    ghost use Rattle.rules.specs.Stages as stages;
    ghost use Rattle.scaling.specs.WorkState.{
      state_of,
      Tracks,
      Same,
      One,
      Two,
      Reorders,
      entries_for,
      height_for,
      RowOf,
    };
    ghost use Rattle.scaling.specs.Rows.{
      Ready,
      Eliminated,
      Pivot,
      Apart,
      AllReduced,
      RowBegun,
      RowDone,
      RowsBegun,
      RowsDone,
      Stage3Begun,
    };

    // Columns i and j of T and V, rows i and j of W.
    pub fn swap(mut self, i: usize, j: usize) -> Work
        requires { Two i j self }
        ensures { Same self.m self.cols result (swap_step i j (state_of self)) }
    {
        let (m, cols) = (self.m, self.cols);
        swap(&mut self.t, i, j, cols, m);
        swap(&mut self.v, i, j, cols, cols);
        swap(&mut self.w, i * cols, j * cols, 1, cols);
        self.steps += 1;
        self
    }

    pub fn negate(mut self, i: usize) -> Work
        requires { One i self }
        ensures { Same self.m self.cols result (negate_step i (state_of self)) }
    {
        let (m, cols) = (self.m, self.cols);
        negate(&mut self.t, i, cols, m);
        negate(&mut self.v, i, cols, cols);
        negate(&mut self.w, i * cols, 1, cols);
        self.steps += 1;
        self
    }

    // Column j gains q times column i in T and V; in W row i loses q times row j.
    pub fn add(mut self, i: usize, j: usize, q: i64) -> Work
        requires two { Two i j self }
        requires q_bound { nat_abs q ≤ 2147483648 }
        ensures { Tracks self.m self.cols result (add_step i j q (state_of self)) }
    {
        let (m, cols) = (self.m, self.cols);
        let a = add(&mut self.t, j, i, cols, m, q);
        let b = add(&mut self.v, j, i, cols, cols, q);
        let c = add(&mut self.w, i * cols, j * cols, 1, cols, -q);
        self.over = a | b | c;
        self.steps += 1;
        self
    }

    // The columns after a come before columns 0 to a, and the rows of W likewise.
    pub fn reorder(mut self, a: usize) -> Work
        requires { Reorders a self }
        ensures { Same self.m self.cols result (steps.reorder a (state_of self)) }
    {
        let (m, cols) = (self.m, self.cols);
        rotate(&mut self.t, m, cols, a);
        rotate(&mut self.v, cols, cols, a);
        rotate(&mut self.w, 1, cols * cols, a * cols);
        self
    }

    fn table(&self, which: Table) -> &[i32]
        ensures { result.now ≡ entries_for which self.now }
    {
        match which {
            Table::T => &self.t,
            Table::V => &self.v,
        }
    }

    // How many rows the table has.
    fn height(&self, which: Table) -> usize
        ensures { result ≡ height_for which self.now }
    {
        match which {
            Table::T => self.m,
            Table::V => self.cols,
        }
    }

    // Row k of the table.
    fn row_of(&self, which: Table, k: usize) -> &[i32]
        requires { k < height_for which self.now }
        ensures { RowOf which k self.now result.now }
    {
        let start = k * self.cols;
        &self.table(which)[start..start + self.cols]
    }

    // (A), once and then again, until one column is left or a value is beyond M: q times column p is added to column j.
    // The table, the row and its columns lo to a stay parameters, as the definitions have them: a struct would be made anew for each row.
    fn eliminate(
        mut self,
        which: Table,
        row: usize,
        lo: usize,
        a: usize,
        p: usize,
        j: usize,
        q: i64,
    ) -> Work
        requires { Ready which row lo a p j q self }
        ensures { Eliminated which row lo a self result }
    {
        let work = self.add(p, j, q);
        if work.over {
            return work;
        }
        let x = work.row_of(which, row);
        let next = next_pivot(x, p, j);
        let Some(k) = other(x, next, lo, a) else {
            return work;
        };
        let r = quotient(x, next, k);
        // Into the memory of self, so that a level takes room for two states and not for three.
        self = work.eliminate(which, row, lo, a, next, k, r);
        self
    }

    // Columns lo to hi come into range, in order.
    fn reduce_all(mut self, which: Table, row: usize, b: usize, lo: usize, hi: usize) -> Work
        requires pivot { Pivot which row b self self.cols }
        requires apart { Apart self.cols b lo hi }
        ensures { AllReduced which row b lo hi self result }
    {
        for c in lo..hi {
            let q = floor_quotient(self.row_of(which, row), b, c);
            // By the definition's name.
            let in_range = q == 0;
            if !in_range {
                self = self.add(b, c, q);
                if self.over {
                    return self;
                }
            }
        }
        self
    }

    // (A) and (B) in a row whose smallest entry stands in column p.
    fn row(mut self, which: Table, k: usize, lo: usize, a: usize, p: usize) -> Work
        requires { RowBegun which k lo a p self }
        ensures { RowDone which k lo a self result }
    {
        let x = self.row_of(which, k);
        if let Some(j) = other(x, p, lo, a) {
            let q = quotient(x, p, j);
            self = self.eliminate(which, k, lo, a, p, j, q);
            if self.over {
                return self;
            }
        }
        let b = a - 1;
        // (A) leaves a column that is not 0.
        let left = filled(self.row_of(which, k), lo, a).unwrap();
        if left != b {
            self = self.swap(left, b);
        }
        if negative(self.row_of(which, k), b) {
            self = self.negate(b);
        }
        let cols = self.cols;
        if let Some(c) = unreduced(self.row_of(which, k), b, a, cols) {
            self = self.reduce_all(which, k, b, c, cols);
        }
        self
    }

    // All rows from the last to the first, each passed over where its active columns are all zero. R13.1 gives the form of the loops.
    pub fn rows(mut self, which: Table, lo: usize) -> Progress
        requires { RowsBegun which lo self }
        ensures { RowsDone which lo self result.work result.a }
    {
        let mut a = self.cols;
        'rows: for k in (0..self.height(which)).rev() {
            let x = self.row_of(which, k);
            let mut best = None;
            let mut columns = lo..a;
            let p = loop {
                let Some(j) = columns.next() else {
                    let Some(p) = best else {
                        continue 'rows;
                    };
                    break p;
                };
                best = better(x, best, j);
            };
            self = self.row(which, k, lo, a, p);
            a -= 1;
            if self.over {
                return Progress { work: self, a };
            }
        }
        Progress { work: self, a }
    }

    // The first r columns of V come into range at every pivot row of the others, from the bottom row up.
    // Not inlined: its states would lie on the stack below stages 1 and 2, which go deeper.
    #[inline(never)]
    pub fn stage3(mut self, r: usize) -> Work
        requires { Stage3Begun r self }
        ensures { Tracks self.m self.cols result (stages.stage3 self.cols r self.cols (state_of self)) }
    {
        for c in (r..self.cols).rev() {
            let Some(k) = pivot_row(&self.v, self.cols, c) else {
                continue;
            };
            if let Some(j) = unreduced(self.row_of(Table::V, k), c, 0, r) {
                self = self.reduce_all(Table::V, k, c, j, r);
                if self.over {
                    return self;
                }
            }
        }
        self
    }
}
