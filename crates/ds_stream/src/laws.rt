//! What follows of the definitions of windows.
ghost use Rattle.ds_stream.specs.StreamLaws.{AreTheLines, FitsAgain, GoesOnBehind, IsOfTheLimit};
ghost use Rattle.ds_stream.specs.StreamLaws.{AreNoShorter, IsReadWhole};
ghost use Rattle.ds_stream.specs.StreamLaws.{ShortIsRead, WindowsAreOne, WindowsAreTheStream};
ghost use Rattle.ds_stream.specs.StreamWorked.{IsStreamWorked};

/// Short texts have the lines and the windows that they should.
pub fn worked_windows()
    ensures { IsStreamWorked }
{}

/// Without where they end, the lines of a stream are those of its text.
pub fn are_the_lines()
    ensures { AreTheLines }
{}

/// Windows, one after another, are one window, and all of them are the stream.
pub fn windows_are_the_stream()
    ensures one { WindowsAreOne }
    ensures stream { WindowsAreTheStream }
{}

/// A short text stands for the same vectors in windows and whole; with the limit of vectors that
/// are read whole these are the ones that are read whole.
pub fn short_is_read()
    ensures short { ShortIsRead }
    ensures limit { IsOfTheLimit }
    ensures whole { IsReadWhole }
{}

/// Behind the vectors that were given the lines go on with the rest of the text, and the numbers
/// behind the next window fit again.
pub fn windows_go_on()
    ensures lines { GoesOnBehind }
    ensures fits { FitsAgain }
{}

/// Vectors have their characters, and a newline each but the last: so many bytes can be asked for
/// that none stands behind the last line of a window.
pub fn windows_are_no_shorter()
    ensures { AreNoShorter }
{}
