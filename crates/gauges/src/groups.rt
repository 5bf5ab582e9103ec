// The groups that a build leaves in V.
ghost use Rattle.std.specs.Prelude.{◌≡◌, ◌<◌, ◌≤◌, IfNone, IfSome};
ghost use Rattle.gauges.specs.Gauging.{column, Table, Exponents};

use arrayvec::ArrayVec;

// Of `count` groups: the exponent of quantity j in group g stands in `v` at first + g + j * cols.
#[derive(Drop)]
pub struct Groups<'a> {
    pub n: usize,
    pub v: &'a [i32],
    pub first: usize,
    pub cols: usize,
    pub count: u32,
    ghost few: { n ≤ 16 },
    ghost table: { Table n count v.now first cols },
}

impl Groups<'_> {
    // The exponents of a group, if there is one of that number.
    pub fn exponents(&self, group: u32) -> Option<ArrayVec<i32, 16>>
        ensures no_group { IfNone result (self.now.count ≤ group) }
        ensures there { IfSome result (λ es. group < self.now.count) }
        ensures found { IfSome result (λ es. Exponents self.now.n
            (column self.now.v.now self.now.first self.now.cols group) es.items) }
    {
        if self.count <= group {
            return None;
        }
        // `as`: std has no From of u32 for usize. By j: the exponents stand a stride apart.
        let at = self.first + group as usize;
        let mut exponents = ArrayVec::new();
        for j in 0..self.n {
            exponents.push(self.v[at + j * self.cols]);
        }
        Some(exponents)
    }
}
