//! Laws of sampling. The contract of a function with an empty body is the law.

ghost use Rattle.qr_sampling.specs.Laws.{DrawnSquaresAreSampled};

/// Sampling a square that is drawn in black and white, by the map of the frame in which it is drawn, yields exactly the
/// modules that are drawn. None of them is unknown.
///
/// A module must have at least `2 * reach + 1` pixels on a side. With fewer, places in the modules beside it are sampled
/// too. Take a square of 3 by 3 modules of which only one at a corner is dark, modules of 2 by 2 pixels, and a reach of 1:
/// then the two modules beside the dark one are not known. The law says nothing of grey values between 0 and 255: in a
/// square of light modules that all have the value 254, all are taken for dark.
pub fn drawn_squares_are_sampled()
    ensures { DrawnSquaresAreSampled }
{}
