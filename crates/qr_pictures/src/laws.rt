//! Laws of pictures. The contract of a function with an empty body is the law.

ghost use Rattle.qr_pictures.specs.Laws.{CleanPicturesAreOne};

/// A picture is the clean picture of one square at most, in one frame and with one turn.
pub fn clean_pictures_are_one()
    ensures { CleanPicturesAreOne }
{}
