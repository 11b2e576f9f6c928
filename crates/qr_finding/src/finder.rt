//! The search: its passes, and the squares that it offers one after the other.

ghost use Rattle.std.specs.Prelude.{◌≡◌, ◌*◌, ◌≤◌, IfSome, min};
ghost use Rattle.qr_finding.specs.Offers.{IsOffer, corners_of};

use crate::blocks::{Grid, Thresholds, low_range, write_dark};
use crate::climb::{Steps, climb, seek_alignment};
use crate::completing::complete;
use crate::fit::{Looks, Scene};
use crate::look::looks_like_symbol;
use crate::number::Number;
use crate::patterns::{Pattern, scan};
use crate::quad::Quad;
use crate::ranking::rank;
use crate::sides::Corners;
use crate::smaller::{shrink, smooth};
use crate::triples::{Triple, write_triples};
use crate::view::{Point, View};
use qr_sampling::{Map, Picture, Sampling, sample};

/// The number of passes.
const PASSES: usize = 6;

/// The patterns that are tried before the others.
const FIRST: usize = 20;

/// The patterns that are tried in the first and in the last pass.
const BEST: usize = 128;

/// Where more patterns are seen, the picture is noise or text: other passes come first.
const MANY: usize = 160;

/// The greatest number of squares that are tried with all effort from one list of triples, without success.
const LOOKS_MAX: usize = 8;

/// The same of the squares whose corners are not moved.
const PLAIN_LOOKS_MAX: usize = 16;

/// The number of ways in which a square is sampled before its corners are moved.
const PLAIN_WAYS: u8 = 4;

/// The greatest number of symbols that are found.
const SYMBOLS_MAX: usize = 64;

/// Work memory. What is missing is not found: the search takes any lengths.
#[derive(Drop)]
pub struct Work<'a> {
    /// A byte for each pixel.
    pub dark: &'a mut [u8],
    /// A byte for each pixel.
    pub other: &'a mut [u8],
    /// A byte for each block of eight by eight pixels.
    pub levels: &'a mut [u8],
    /// A byte for each block of eight by eight pixels.
    pub thresholds: &'a mut [u8],
    /// One for each four by four pixels, with one more in each row and one more row.
    pub cells: &'a mut [u16],
    /// Some 4,096.
    pub patterns: &'a mut [Pattern],
    /// Some 400.
    pub triples: &'a mut [Triple],
    /// Some 24.
    pub tried: &'a mut [Quad],
    /// Three for each module of the greatest symbol, which are 93,987.
    pub bytes: &'a mut [u8],
    /// Three for each module of the greatest symbol, which are 93,987.
    pub sums: &'a mut [u16],
}

/// A square that may be a symbol.
#[derive(Clone, Copy)]
pub struct Found {
    /// How its modules were sampled.
    pub how: Sampling,
    /// The column and the row of each corner, in sixteenths of a pixel: of the first module, of the last one in the first
    /// row, of the last module, and of the first one in the last row.
    pub corners: [(u32, u32); 4],
    /// Whether it has all three finder patterns and both timing patterns, but for one module in eight.
    pub looks_like_symbol: bool,
}

/// A pass: the picture that it looks at is smaller by a power of two, maybe smoothed.
#[derive(Clone, Copy)]
struct Pass {
    shift: u32,
    is_smooth: bool,
    around: usize,
    best: usize,
    most: usize,
}

fn pass_of(index: usize) -> Pass {
    let (best, most) = match index {
        0 => (BEST, 200),
        5 => (BEST, 383),
        _ => (BEST / 2, 96),
    };
    Pass {
        shift: match index {
            2 => 1,
            3 => 2,
            _ => 0,
        },
        is_smooth: index == 1,
        around: if index == 4 { 1 } else { 2 },
        best,
        most,
    }
}

/// A square that is tried: as it was at first, and as its corners were moved.
#[derive(Clone, Copy)]
struct Trial {
    plain: Quad,
    quad: Quad,
    unit: Number,
    /// How well the worst of its three patterns is seen.
    quality: Number,
    is_inverse: bool,
    /// 0: none, 1: as it is, 2: with moved corners, 3: with corners that are moved in another way.
    attempt: u8,
    /// The number of ways in which it was sampled.
    variant: u8,
}

/// Which triples of a pass are tried.
#[derive(Clone, Copy)]
enum List {
    /// Those of the first patterns.
    OfFirst,
    /// Those of all patterns that are seen.
    OfAll,
    /// Those of which one pattern is not seen.
    Completed,
}

/// The state of a search.
#[derive(Clone, Copy)]
pub struct Finder {
    low_range: u8,
    pass: usize,
    is_ready: bool,
    list: List,
    /// Whether the corners of squares are moved. First all triples of a list are tried without this, because it takes much longer.
    is_thorough: bool,
    width: usize,
    height: usize,
    seen: usize,
    patterns: usize,
    first_patterns: usize,
    triples: usize,
    triple: usize,
    looks: usize,
    tried: usize,
    symbols: usize,
    trial: Trial,
}

impl Finder {
    /// Begins a search.
    pub fn new(picture: &Picture) -> Self {
        Finder {
            low_range: low_range(picture),
            pass: 0,
            is_ready: false,
            list: List::OfFirst,
            is_thorough: false,
            width: 0,
            height: 0,
            seen: 0,
            patterns: 0,
            first_patterns: 0,
            triples: 0,
            triple: 0,
            looks: 0,
            tried: 0,
            symbols: 0,
            trial: Trial {
                plain: Quad::NONE,
                quad: Quad::NONE,
                unit: Number(0),
                quality: Number(0),
                is_inverse: false,
                attempt: 0,
                variant: 0,
            },
        }
    }

    /// Writes the modules of the next square that may be a symbol, or returns `None` if there is no other one. `was_read`
    /// says whether the last one was a symbol.
    pub fn next(
        &mut self,
        picture: &Picture,
        work: Work,
        modules: &mut [u8],
        was_read: bool,
    ) -> Option<Found>
        ensures { IfSome result (IsOffer picture.now modules.new) }
    {
        let Work {
            dark,
            other,
            levels,
            thresholds,
            cells,
            patterns,
            triples,
            tried,
            bytes,
            sums,
        } = work;
        if was_read {
            self.mark(patterns);
        }
        for _ in 0..STEPS_MAX {
            if self.pass >= PASSES {
                return None;
            }
            if self.trial.attempt > 0 {
                let found = self.offer(picture, bytes, sums, modules);
                if found.is_some() {
                    return found;
                }
                self.after_offer(picture, dark, thresholds, tried);
            } else if self.is_ready {
                self.next_triple(picture, (dark, thresholds), patterns, triples);
            } else {
                let pixels = Pixels {
                    dark,
                    other,
                    levels,
                    thresholds,
                };
                self.prepare(
                    picture,
                    pixels,
                    Lists {
                        cells,
                        patterns,
                        triples,
                    },
                );
            }
        }
        None
    }
}

/// Room for a pass: of the pixels and of the blocks.
#[derive(Drop)]
struct Pixels<'a> {
    dark: &'a mut [u8],
    other: &'a mut [u8],
    levels: &'a mut [u8],
    thresholds: &'a mut [u8],
}

/// Room for a pass: of the patterns and the triples.
#[derive(Drop)]
struct Lists<'a> {
    cells: &'a mut [u16],
    patterns: &'a mut [Pattern],
    triples: &'a mut [Triple],
}

/// More steps than a search can take: passes, lists, triples, and ways to sample a square.
const STEPS_MAX: usize = 100_000;

// Returns whether a place is inside a square.
fn is_inside(corners: &[(u32, u32); 4], place: Point) -> bool {
    let (mut plus, mut minus) = (0u8, 0u8);
    for k in 0..4usize {
        let (x0, y0) = corners[k];
        let (x1, y1) = corners[(k + 1) % 4];
        let from = Point {
            x: Number(i64::from(x0)),
            y: Number(i64::from(y0)),
        };
        let way = Point {
            x: Number(i64::from(x1)),
            y: Number(i64::from(y1)),
        }
        .minus(from);
        let off = place.minus(from);
        let turn = way.x * off.y - way.y * off.x;
        plus = plus.saturating_add(u8::from(turn > Number(0)));
        minus = minus.saturating_add(u8::from(turn < Number(0)));
    }
    plus == 0 || minus == 0
}

// Returns the corners of a symbol.
fn corners_of(map: &Map, side: usize) -> [(u32, u32); 4]
    ensures { result ≡ corners_of map.now (8 * min side 177) }
{
    let end = (side.min(177) * 8) as u32;
    [
        (map.column_of(0, 0), map.row_of(0, 0)),
        (map.column_of(end, 0), map.row_of(end, 0)),
        (map.column_of(end, end), map.row_of(end, end)),
        (map.column_of(0, end), map.row_of(0, end)),
    ]
}

impl Finder {
    // Marks the patterns that are inside the last square, and those that are seen less than two thirds as well as the worst of its
    // three, and ends its trial. Letters are mostly seen so, and the other symbols of a picture are not.
    fn mark(&mut self, patterns: &mut [Pattern]) {
        self.trial.attempt = 0;
        self.symbols = self.symbols.saturating_add(1);
        let least = self.trial.quality * 2 / 3;
        let Some(map) = self.trial.quad.map() else {
            return;
        };
        let corners = corners_of(&map, self.trial.quad.side);
        let scale = Number(1 << pass_of(self.pass).shift.min(4));
        for k in 0..self.patterns.min(patterns.len()) {
            if patterns[k].quality < least || is_inside(&corners, patterns[k].middle.times(scale)) {
                patterns[k].is_used = true;
            }
        }
    }

    // Returns how the square is to be sampled next.
    fn how(&self) -> Option<Sampling> {
        let trial = self.trial;
        let reach = ((trial.unit + 8) / 64).index().min(4) as u32;
        let is_sharpened = trial.variant >= 4;
        // A square is sampled first at fewer places, which mostly is enough.
        let is_quick = trial.attempt == 1 && trial.variant < 2;
        let near = if trial.unit < Number(40) {
            0
        } else if reach > 0 {
            reach - 1
        } else {
            1
        };
        Some(Sampling {
            map: trial.quad.map()?,
            side: trial.quad.side,
            reach: if is_sharpened {
                near
            } else if is_quick {
                reach / 2
            } else {
                reach
            },
            is_sharpened,
            is_decided: trial.variant / 2 % 2 == 1,
            is_inverse: trial.is_inverse,
            is_mirrored: trial.variant % 2 == 1,
        })
    }

    // Samples the square in the next way. Where more than one module in eight is not known, it is not offered.
    fn offer(
        &mut self,
        picture: &Picture,
        bytes: &mut [u8],
        sums: &mut [u16],
        modules: &mut [u8],
    ) -> Option<Found>
        ensures { IfSome result (IsOffer picture.now modules.new) }
    {
        let ways = if self.trial.attempt == 1 {
            PLAIN_WAYS
        } else {
            8
        };
        if self.trial.variant >= ways {
            return None;
        }
        let next = self.how();
        self.trial.variant = self.trial.variant.saturating_add(1);
        let how = next?;
        if !sample(picture, &how, bytes, sums, modules) {
            return None;
        }
        if !how.is_decided
            && count_unknown(modules, how.side).saturating_mul(8)
                > how.side.saturating_mul(how.side)
        {
            return None;
        }
        Some(Found {
            how,
            corners: corners_of(&how.map, how.side),
            looks_like_symbol: looks_like_symbol(modules, how.side),
        })
    }

    // After a way to sample the square that was not offered: the next attempt, if all ways were tried.
    fn after_offer(
        &mut self,
        picture: &Picture,
        dark: &[u8],
        thresholds: &[u8],
        tried: &mut [Quad],
    ) {
        let ways = if self.trial.attempt == 1 {
            PLAIN_WAYS
        } else {
            8
        };
        if self.trial.variant < ways {
            return;
        }
        self.trial.variant = 0;
        let shift = pass_of(self.pass).shift.min(4);
        let scene = Scene {
            picture,
            thresholds: Thresholds {
                values: thresholds,
                grid: Grid::new(self.width, self.height),
                shift,
            },
            view: View {
                pixels: dark,
                width: self.width,
                height: self.height,
            },
            is_inverse: self.trial.is_inverse,
        };
        if self.trial.attempt == 1 {
            if !self.is_thorough {
                self.trial.attempt = 0;
                self.looks = self.looks.saturating_add(1);
                return;
            }
            if self.was_tried(tried) {
                self.trial.attempt = 0;
                return;
            }
            self.trial.attempt = 2;
            self.trial.quad = self.moved(&scene);
        } else if self.trial.attempt == 2 {
            self.trial.attempt = 3;
            self.trial.quad = self.moved_freely(&scene);
        } else {
            self.trial.attempt = 0;
            self.looks = self.looks.saturating_add(1);
        }
    }

    fn looks(&self, with_alignment: bool) -> Looks {
        Looks {
            spread: if self.trial.unit >= Number(40) { 3 } else { 2 },
            with_alignment,
        }
    }

    // Returns the square with its corners moved, the fourth one by the last alignment pattern.
    fn moved(&self, scene: &Scene) -> Quad {
        let trial = self.trial;
        let mut quad = trial.plain;
        if quad.side > 21 {
            let reach = (quad.side / 16).saturating_add(2).max(3).min(8);
            quad = seek_alignment(scene, &quad, reach);
        }
        let wide = Steps {
            first: trial.unit.most(Number(16)),
            least: Number(2),
            corners: 1,
        };
        let narrow = Steps {
            first: (trial.unit / 4).most(Number(4)),
            least: Number(2),
            corners: 4,
        };
        climb(
            scene,
            &climb(scene, &quad, wide, self.looks(true)),
            narrow,
            self.looks(true),
        )
    }

    // The same, but the fourth corner is moved first without the alignment pattern, which may have been found wrongly.
    fn moved_freely(&self, scene: &Scene) -> Quad {
        let trial = self.trial;
        let wide = Steps {
            first: trial.unit.most(Number(16)) * 4,
            least: Number(2),
            corners: 1,
        };
        let narrow = Steps {
            first: (trial.unit / 2).most(Number(4)),
            least: Number(1),
            corners: 4,
        };
        let mut quad = climb(scene, &trial.plain, wide, self.looks(false));
        if quad.side > 21 {
            quad = seek_alignment(scene, &quad, 2);
        }
        climb(scene, &quad, narrow, self.looks(true))
    }

    // Returns whether three patterns at about these places were tried in vain. If not, they are noted.
    fn was_tried(&mut self, tried: &mut [Quad]) -> bool {
        let quad = self.trial.plain;
        let way = quad.right.minus(quad.corner);
        let near = ((way.x.size() + way.y.size()) * 2 / Number::of(quad.side)).most(Number(32));
        for k in 0..self.tried.min(tried.len()) {
            let other = tried[k];
            if other.side == quad.side
                && other.corner.steps_to(quad.corner) < near
                && other.right.steps_to(quad.right) < near
                && other.below.steps_to(quad.below) < near
            {
                return true;
            }
        }
        if self.tried < tried.len() {
            tried[self.tried] = quad;
            self.tried += 1;
        }
        false
    }

    // Begins to try the next triple, or goes on to the next list or pass.
    fn next_triple(
        &mut self,
        picture: &Picture,
        pixels: (&[u8], &[u8]),
        patterns: &mut [Pattern],
        triples: &mut [Triple],
    ) {
        let looks_max = if self.is_thorough {
            LOOKS_MAX
        } else {
            PLAIN_LOOKS_MAX
        };
        if self.looks >= looks_max || self.triple >= self.triples || self.symbols >= SYMBOLS_MAX {
            if self.looks > 0 && !self.is_thorough {
                self.begin_list(true);
            } else {
                self.end_list(pixels.0, patterns, triples);
            }
            return;
        }
        let index = self.triple;
        self.triple = self.triple.saturating_add(1);
        if index >= triples.len() {
            return;
        }
        let triple = triples[index];
        let Some(corners) = Corners::of(patterns, &triple) else {
            return;
        };
        if corners.corner.is_used || corners.right.is_used || corners.below.is_used {
            return;
        }
        self.trial.is_inverse = corners.corner.is_inverse;
        let (dark, thresholds) = pixels;
        let shift = pass_of(self.pass).shift.min(4);
        let scene = Scene {
            picture,
            thresholds: Thresholds {
                values: thresholds,
                grid: Grid::new(self.width, self.height),
                shift,
            },
            view: View {
                pixels: dark,
                width: self.width,
                height: self.height,
            },
            is_inverse: corners.corner.is_inverse,
        };
        self.begin(&scene, &corners);
    }

    // Begins to try three patterns, if the timing patterns between them fit.
    fn begin(&mut self, scene: &Scene, corners: &Corners) {
        let scale = 1i64 << pass_of(self.pass).shift.min(4);
        let (plain, timing) = corners.choose(scene, scale, self.symbols > 0);
        if timing < Number(600) || scene.share(&plain) < Number(660) {
            return;
        }
        let unit = corners.unit(scale);
        let far = unit.most(Number(16));
        let mut quad = plain;
        if timing < Number(900) {
            let steps = Steps {
                first: far,
                least: (far / 4).most(Number(2)),
                corners: 1,
            };
            let looks = Looks {
                spread: 0,
                with_alignment: false,
            };
            quad = climb(scene, &plain, steps, looks);
            if scene.timing_share(&quad) < Number(680) {
                return;
            }
        }
        if scene.share(&quad) < Number(800) {
            return;
        }
        if quad.side > 21 && !self.is_thorough {
            quad = seek_alignment(scene, &quad, 4);
        }
        self.trial = Trial {
            plain,
            quad,
            unit,
            quality: corners.worst_quality(),
            is_inverse: self.trial.is_inverse,
            attempt: 1,
            // (the first attempt was made before)
            variant: if self.is_thorough { PLAIN_WAYS } else { 0 },
        };
    }

    // After the triples of the first patterns, those of all may be tried, and in the first pass those of which one pattern is not
    // seen. Then the pass ends, and the search too if a symbol was found.
    fn end_list(&mut self, dark: &[u8], patterns: &mut [Pattern], triples: &mut [Triple]) {
        let pass = pass_of(self.pass);
        let is_worth = self.symbols > 0 || self.seen < MANY || self.pass == 5;
        if matches!(self.list, List::OfFirst)
            && self.patterns > FIRST
            && is_worth
            && self.symbols < SYMBOLS_MAX
        {
            self.list = List::OfAll;
            self.list_triples(patterns, triples, (self.patterns, pass.most));
            return;
        }
        if !matches!(self.list, List::Completed) && self.pass == 0 && self.symbols == 0 {
            self.list = List::Completed;
            self.list_completed(dark, patterns, triples);
            return;
        }
        self.is_ready = false;
        self.pass = if self.symbols > 0 {
            PASSES
        } else {
            self.pass.saturating_add(1)
        };
    }

    fn list_triples(
        &mut self,
        patterns: &[Pattern],
        triples: &mut [Triple],
        bounds: (usize, usize),
    ) {
        let (count, most) = bounds;
        self.triples = write_triples(patterns, count, most, triples);
        self.begin_list(false);
    }

    // Goes to the first triple of the list.
    fn begin_list(&mut self, is_thorough: bool) {
        self.is_thorough = is_thorough;
        self.triple = 0;
        self.looks = 0;
    }

    // Lists the triples of which one pattern is not seen.
    fn list_completed(&mut self, dark: &[u8], patterns: &mut [Pattern], triples: &mut [Triple]) {
        let view = View {
            pixels: dark,
            width: self.width,
            height: self.height,
        };
        let (patterns, triples) = complete(&view, patterns, self.patterns, triples);
        self.patterns = patterns;
        self.triples = triples;
        self.begin_list(false);
    }

    // Prepares a pass: the dark pixels, the patterns, and the triples of the first ones.
    fn prepare(&mut self, picture: &Picture, pixels: Pixels, lists: Lists) {
        let pass = pass_of(self.pass);
        let (width, height) = (usize::from(picture.width), usize::from(picture.height));
        let shift = pass.shift.min(4);
        let least = if shift == 0 { 1 } else { 21usize << shift };
        if width < least || height < least || (self.pass == 5 && self.first_patterns < BEST) {
            self.pass = self.pass.saturating_add(1);
            return;
        }
        self.width = width >> shift;
        self.height = height >> shift;
        self.is_ready = true;
        self.list = List::OfFirst;
        let Pixels {
            dark,
            other,
            levels,
            thresholds,
        } = pixels;
        let Lists {
            cells,
            patterns,
            triples,
        } = lists;
        write_pixels(
            picture,
            &pass,
            self.low_range,
            Pixels {
                dark,
                other,
                levels,
                thresholds,
            },
        );
        self.find_patterns(dark, cells, patterns, pass.best);
        if self.pass == 0 {
            self.first_patterns = self.patterns;
        }
        self.list_triples(patterns, triples, (self.patterns.min(FIRST), pass.most));
    }

    // Finds the patterns of a pass, the best first.
    fn find_patterns(
        &mut self,
        dark: &[u8],
        cells: &mut [u16],
        patterns: &mut [Pattern],
        best: usize,
    ) {
        for cell in cells.iter_mut() {
            *cell = 0;
        }
        let view = View {
            pixels: dark,
            width: self.width,
            height: self.height,
        };
        self.seen = scan(&view, patterns, cells);
        self.patterns = rank(&view, patterns, self.seen, best);
    }
}

// Writes the dark pixels and the thresholds of a pass.
fn write_pixels(picture: &Picture, pass: &Pass, low_range: u8, pixels: Pixels) {
    let Pixels {
        dark,
        other,
        levels,
        thresholds,
    } = pixels;
    let shift = pass.shift.min(4);
    if pass.is_smooth {
        smooth(picture, other);
    } else if shift > 0 {
        shrink(picture, 1 << shift, other);
    } else {
        write_dark(picture, pass.around, low_range, (levels, thresholds), dark);
        return;
    }
    let (width, height) = (
        u32::from(picture.width) >> shift,
        u32::from(picture.height) >> shift,
    );
    if let Ok(small) = Picture::new(other, width, height, width as usize) {
        write_dark(&small, pass.around, low_range, (levels, thresholds), dark);
    }
}

// Returns the number of the modules of a square that are not known.
fn count_unknown(modules: &[u8], side: usize) -> usize {
    let mut count = 0usize;
    for module in modules.iter().take(side.saturating_mul(side)) {
        if *module == 2 {
            count = count.saturating_add(1);
        }
    }
    count
}
