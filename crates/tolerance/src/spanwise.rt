// Span by span: the walk over all of them, which only counts, and then the points of all of them.
ghost use Rattle.std.specs.Prelude.{◌≡◌, ◌≤◌, ◌<◌, length};
ghost use Rattle.std.proofs.lemmas.List.Edits.{sets};
ghost use Rattle.whole.specs.Outcome.{outcome};
ghost use Rattle.pieces.specs.Tree.{most_tolerance, piece};
ghost use Rattle.pieces.specs.Values.{exact_of, numbers};
ghost use Rattle.tolerance.specs.Reading.{controls_of, values_of, walk_of};
ghost use Rattle.tolerance.specs.Inner.{AllSound};

use curve::rounding::divisor_bits;
use pieces::fill::fill_starts;
use pieces::rule::Rule;
use pieces::walk::count_cuts;
use pieces::{Filled, Piece, Uncut};
use spans::draft::{Draft, span_controls};
use spans::point::put_point;

// A draft and the tolerance by which its spans are cut.
#[derive(Clone, Copy)]
pub(crate) struct Cutting<'a> {
    pub(crate) draft: Draft<'a>,
    pub(crate) tolerance: usize,
    ghost near: { tolerance ≤ most_tolerance },
}

impl Cutting<'_> {
    // A span before any cut.
    fn whole_span(&self, span: usize) -> Piece
        requires { span < self.now.draft.plan.spans }
        ensures { result ≡ piece 0 (controls_of self.now.draft.plan self.now.draft.controls.now span 0) (controls_of self.now.draft.plan self.now.draft.controls.now span 1) }
    {
        let Draft { plan, controls } = self.draft;
        Piece::whole(
            span_controls(controls, plan, span, 0),
            span_controls(controls, plan, span, 1),
        )
    }

    // The walk over all spans from the left: how many cuts it makes.
    pub(crate) fn count(&self, most: usize) -> Result<usize, Uncut>
        ensures { result ≡ walk_of self.now.draft.plan self.now.tolerance most self.now.draft.controls.now }
    {
        let plan = self.draft.plan;
        let rule = Rule {
            basis: plan.basis,
            tolerance: self.tolerance,
        };
        let mut made = 0;
        for span in 0..plan.spans {
            let piece = self.whole_span(span);
            made = count_cuts(piece, rule, most, made)?;
        }
        Ok(made)
    }

    // The starts of the flat pieces of all spans, and the last end. It answers how many of their numbers are exact.
    pub(crate) fn fill(&self, points: &mut [i32]) -> usize
        requires sound { AllSound self.now.draft.plan self.now.tolerance self.now.draft.controls.now }
        requires controls_in_bounds { length (values_of self.now.draft.plan self.now.tolerance self.now.draft.controls.now) ≤ length points.old }
        ensures { outcome result points.new ≡ outcome (exact_of (values_of self.now.draft.plan self.now.tolerance self.now.draft.controls.now)) (sets points.old 0 (numbers (values_of self.now.draft.plan self.now.tolerance self.now.draft.controls.now))) }
    {
        let plan = self.draft.plan;
        let rule = Rule {
            basis: plan.basis,
            tolerance: self.tolerance,
        };
        let mut filled = Filled { next: 0, exact: 0 };
        for span in 0..plan.spans {
            let piece = self.whole_span(span);
            filled = fill_starts(points, filled, piece, rule);
        }
        let last = self.whole_span(plan.spans - 1);
        let bits = divisor_bits(plan.basis, 0);
        put_point(points, filled.next, bits, last.x.d, last.y.d, filled.exact)
    }
}
