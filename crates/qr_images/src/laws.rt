//! Laws of images. The contract of a function with an empty body is the law.

ghost use Rattle.qr_images.specs.Laws.{BitmapsAreReadBack, FilesAreReadBack, FilesAreShort, FilesShowOnePicture};
ghost use Rattle.qr_images.specs.PrinterLaws.{PackedLinesCompute, PrintersCompute, ReceiptsAreReadBack, TsplLabelsAreReadBack, ZplLabelsAreReadBack};

/// The file that `write_image` writes as PNG, read by the rules of PNG, zlib's format and deflate, is a picture in
/// which each module of the square and its margin is a square of pixels in the module's colour.
pub fn files_are_read_back()
    ensures { FilesAreReadBack }
{}

/// A file shows one picture.
pub fn files_show_one_picture()
    ensures { FilesShowOnePicture }
{}

/// The file that `write_image` writes as PBM, read by the rules of PBM, is a bitmap in which each module of the square
/// and its margin is a square of pixels in the module's colour.
pub fn bitmaps_are_read_back()
    ensures { BitmapsAreReadBack }
{}

/// Each file that `write_image` writes has fewer than 2^64 bytes.
pub fn files_are_short()
    ensures { FilesAreShort }
{}

/// The commands that `write_image` writes as ESC/POS, read by the rules of ESC/POS, print a bitmap in which each module
/// of the square and its margin is a square of dots in the module's colour. Dots that fill the last byte of a line are
/// white.
pub fn receipts_are_read_back()
    ensures { ReceiptsAreReadBack }
{}

/// The command that `write_image` writes as TSPL, read by the rules of TSPL, prints such a bitmap at the place that the
/// settings say.
pub fn tspl_labels_are_read_back()
    ensures { TsplLabelsAreReadBack }
{}

/// The label that `write_image` writes as ZPL, read by the rules of ZPL and of its packing, prints such a bitmap at the
/// place that the settings say.
pub fn zpl_labels_are_read_back()
    ensures { ZplLabelsAreReadBack }
{}

/// Examples, worked out by hand, of what packed lines of ZPL stand for.
pub fn packed_lines_compute()
    ensures { PackedLinesCompute }
{}

/// Examples, worked out by hand, of what files in the languages of printers print.
pub fn printers_compute()
    ensures { PrintersCompute }
{}
