//! A plain encoder of code-blocks, one place after another as T.800 D.3 has them: what the lists of
//! the encoder, which are made of whole columns, are compared with.

use jk_block::{Block, BlockShape};
use jk_math::Fault;
use jk_mqenc::Encoder;
use jk_scan::{Contribution, contributed, refine_context, sign_context, zero_context};
use std::alloc::Global;
use std::process::Abort;

/// The contexts of a column in run mode, and of decisions that are as likely 0 as 1 (T.800 Table D.7).
const RUN_LENGTH: u8 = 17;

const UNIFORM: u8 = 18;

/// A coding pass (T.800 D.3).
#[derive(Clone, Copy, PartialEq)]
enum Pass {
    Propagation,
    Refinement,
    Cleanup,
}

/// Which places of a block are marked. None beside it is.
#[derive(Drop)]
struct Places {
    width: usize,
    height: usize,
    marks: Vec<bool>,
}

impl Places {
    fn none(rt: &impl Abort, alloc: Global, width: usize, height: usize) -> Places {
        let count = width.saturating_mul(height);
        Places {
            width,
            height,
            marks: vec![in alloc; false; count].expect(rt, "places"),
        }
    }

    fn place(&self, x: usize, y: usize) -> usize {
        if x < self.width && y < self.height {
            y.saturating_mul(self.width).saturating_add(x)
        } else {
            usize::MAX
        }
    }

    fn has(&self, x: usize, y: usize) -> bool {
        let place = self.place(x, y);
        place < self.marks.len() && self.marks[place]
    }

    fn mark(&mut self, x: usize, y: usize) {
        let place = self.place(x, y);
        if place < self.marks.len() {
            self.marks[place] = true;
        }
    }

    fn clear(&mut self) {
        for mark in self.marks.iter_mut() {
            *mark = false;
        }
    }
}

/// A block that is coded, and what is known of its places.
#[derive(Drop)]
pub(crate) struct Model {
    shape: BlockShape,
    values: Vec<i32>,
    plane: u32,
    significant: Places,
    /// What the significance propagation pass of this plane has coded.
    visited: Places,
    refined: Places,
    encoder: Encoder,
    marks: Vec<usize>,
    /// Why a call was refused, if one was.
    refused: Result<(), Fault>,
}

impl Model {
    /// Nothing of a block is coded.
    pub(crate) fn new(rt: &impl Abort, alloc: Global, block: &Block) -> Model {
        let (width, height) = (block.width, block.height);
        Model {
            shape: BlockShape {
                width,
                height,
                orientation: block.orientation,
                style: block.style,
            },
            values: block.values.clone().expect(rt, "coefficients"),
            plane: 0,
            significant: Places::none(rt, alloc, width, height),
            visited: Places::none(rt, alloc, width, height),
            refined: Places::none(rt, alloc, width, height),
            encoder: Encoder::new(alloc),
            marks: Vec::new(alloc),
            refused: Ok(()),
        }
    }

    fn value(&self, x: usize, y: usize) -> i32 {
        let place = self.significant.place(x, y);
        if place < self.values.len() {
            self.values[place]
        } else {
            0
        }
    }

    /// The bit of this plane.
    fn bit(&self, x: usize, y: usize) -> bool {
        let magnitude = self.value(x, y).unsigned_abs();
        self.plane < 32 && magnitude >> self.plane & 1 == 1
    }

    /// Whether a place is significant as one of this row sees it: with vertically causal contexts
    /// none in the stripe below is (T.800 D.7).
    fn sees(&self, row: usize, x: usize, y: usize) -> bool {
        let below = y > row && y % 4 == 0;
        !(self.shape.style.causal && below) && self.significant.has(x, y)
    }

    /// How many of these places a row sees as significant.
    fn count(&self, row: usize, places: &[(usize, usize)]) -> u8 {
        let mut count: u8 = 0;
        for (x, y) in places {
            if self.sees(row, *x, *y) {
                count = count.saturating_add(1);
            }
        }
        count
    }

    /// The context of a place that isn't significant (T.800 Table D.1).
    fn zero(&self, x: usize, y: usize) -> u8 {
        let (west, east) = (x.wrapping_sub(1), x.wrapping_add(1));
        let (north, south) = (y.wrapping_sub(1), y.wrapping_add(1));
        let horizontal = self.count(y, &[(west, y), (east, y)]).min(2);
        let vertical = self.count(y, &[(x, north), (x, south)]).min(2);
        let corners = [(west, north), (east, north), (west, south), (east, south)];
        let diagonal = self.count(y, &corners);
        zero_context(self.shape.orientation, horizontal, vertical, diagonal)
    }

    /// What two places give to the context of a sign (T.800 Table D.2).
    fn contribution(&self, row: usize, places: &[(usize, usize)]) -> Contribution {
        let (mut positive, mut negative): (u8, u8) = (0, 0);
        for (x, y) in places {
            if self.sees(row, *x, *y) {
                if self.value(*x, *y) < 0 {
                    negative = negative.saturating_add(1);
                } else {
                    positive = positive.saturating_add(1);
                }
            }
        }
        contributed(positive, negative)
    }

    /// Codes a decision. A refusal is told in the end.
    fn put(&mut self, context: u8, bit: bool) {
        if context < 19 {
            let answer = self.encoder.encode(context as usize, bit);
            if answer.is_err() {
                self.refused = answer;
            }
        }
    }

    /// Codes the sign of a place, which is significant from then on (T.800 D.3.2).
    fn put_sign(&mut self, x: usize, y: usize) {
        let (west, east) = (x.wrapping_sub(1), x.wrapping_add(1));
        let (north, south) = (y.wrapping_sub(1), y.wrapping_add(1));
        let horizontal = self.contribution(y, &[(west, y), (east, y)]);
        let vertical = self.contribution(y, &[(x, north), (x, south)]);
        let sign = sign_context(horizontal, vertical);
        self.put(sign.context, (self.value(x, y) < 0) != sign.flip);
        self.significant.mark(x, y);
    }

    /// Codes the bit of a place that isn't significant, and its sign where it becomes so.
    fn put_new(&mut self, x: usize, y: usize) {
        let bit = self.bit(x, y);
        self.put(self.zero(x, y), bit);
        if bit {
            self.put_sign(x, y);
        }
    }

    /// A place in the significance propagation pass (T.800 D.3.1).
    fn propagate(&mut self, x: usize, y: usize) {
        if !self.significant.has(x, y) && self.zero(x, y) != 0 {
            self.visited.mark(x, y);
            self.put_new(x, y);
        }
    }

    /// A place in the magnitude refinement pass (T.800 D.3.3).
    fn refine(&mut self, x: usize, y: usize) {
        if self.significant.has(x, y) && !self.visited.has(x, y) {
            let touched = self.zero(x, y) != 0;
            let context = refine_context(self.refined.has(x, y), touched);
            let bit = self.bit(x, y);
            self.put(context, bit);
            self.refined.mark(x, y);
        }
    }

    /// Whether a place is neither significant nor coded in this plane.
    fn is_open(&self, x: usize, y: usize) -> bool {
        !self.significant.has(x, y) && !self.visited.has(x, y)
    }

    /// Whether the four places of a column from this row on are coded in run mode.
    fn is_run(&self, x: usize, top: usize) -> bool {
        if top.saturating_add(4) > self.shape.height {
            return false;
        }
        let mut is_run = true;
        for y in top..top.saturating_add(4) {
            is_run = is_run && self.is_open(x, y) && self.zero(x, y) == 0;
        }
        is_run
    }

    /// The first of the four places of a column that has the bit 1, or 4.
    fn first_one(&self, x: usize, top: usize) -> usize {
        let mut first = 4;
        for i in 0..4 {
            let row = 3 - i;
            if self.bit(x, top.saturating_add(row)) {
                first = row;
            }
        }
        first
    }

    /// A column in run mode: the row behind what is coded of it.
    fn run(&mut self, x: usize, top: usize) -> usize {
        let mut first = self.first_one(x, top);
        self.put(RUN_LENGTH, first < 4);
        if first < 4 {
            self.put(UNIFORM, first >= 2);
            self.put(UNIFORM, first % 2 == 1);
            self.put_sign(x, top.saturating_add(first));
            first = first.saturating_add(1);
        }
        top.saturating_add(first)
    }

    /// A place in the cleanup pass.
    fn clean_place(&mut self, x: usize, y: usize) {
        if self.is_open(x, y) {
            self.put_new(x, y);
        }
    }

    /// A column of a stripe in the cleanup pass (T.800 D.3.4).
    fn clean(&mut self, x: usize, top: usize, end: usize) {
        let next = if self.is_run(x, top) {
            self.run(x, top)
        } else {
            top
        };
        for y in next..end {
            self.clean_place(x, y);
        }
    }

    /// A column of a stripe in the significance propagation pass.
    fn propagate_column(&mut self, x: usize, top: usize, end: usize) {
        for y in top..end {
            self.propagate(x, y);
        }
    }

    /// A column of a stripe in the magnitude refinement pass.
    fn refine_column(&mut self, x: usize, top: usize, end: usize) {
        for y in top..end {
            self.refine(x, y);
        }
    }

    /// A column of a stripe in a pass.
    fn column(&mut self, pass: Pass, x: usize, top: usize, end: usize) {
        match pass {
            Pass::Propagation => self.propagate_column(x, top, end),
            Pass::Refinement => self.refine_column(x, top, end),
            Pass::Cleanup => self.clean(x, top, end),
        }
    }

    /// A stripe in a pass.
    fn stripe(&mut self, pass: Pass, top: usize) {
        let end = top.saturating_add(4).min(self.shape.height);
        for x in 0..self.shape.width {
            self.column(pass, x, top, end);
        }
    }

    /// The segmentation symbol, behind a cleanup pass (T.800 D.5).
    fn symbol(&mut self) {
        self.put(UNIFORM, true);
        self.put(UNIFORM, false);
        self.put(UNIFORM, true);
        self.put(UNIFORM, false);
    }

    /// Notes how many bytes were placed behind a pass.
    fn mark(&mut self) {
        if let Err(refused) = self.marks.push(self.encoder.written()) {
            self.refused = Err(Fault::from(refused));
        }
    }

    /// Codes a pass.
    fn pass(&mut self, pass: Pass) {
        if self.shape.style.reset {
            self.encoder.reset();
        }
        for stripe in 0..self.shape.height.div_ceil(4) {
            self.stripe(pass, stripe.saturating_mul(4));
        }
        if pass == Pass::Cleanup && self.shape.style.segments {
            self.symbol();
        }
        self.mark();
    }

    /// Codes the passes of a bit-plane, of which the highest has one alone.
    fn code_plane(&mut self, plane: u32, is_highest: bool) {
        self.plane = plane;
        self.visited.clear();
        if !is_highest {
            self.pass(Pass::Propagation);
            self.pass(Pass::Refinement);
        }
        self.pass(Pass::Cleanup);
    }

    /// Codes all passes of so many bit-planes: the bytes, and how many were placed behind each pass.
    /// A block without a pass has no bytes.
    pub(crate) fn code(
        mut self,
        rt: &impl Abort,
        alloc: Global,
        planes: u32,
    ) -> (Vec<u8>, Vec<usize>) {
        for above in 0..planes {
            self.code_plane(planes - 1 - above, above == 0);
        }
        let Model {
            encoder,
            marks,
            refused,
            ..
        } = self;
        refused.expect(rt, "passes");
        if planes == 0 {
            return (Vec::new(alloc), marks);
        }
        (encoder.finish().expect(rt, "bytes"), marks)
    }
}
