// What the definitions of a stream say, beside what the code meets.
ghost use Rattle.lsp_frame.specs.Grammar.{HeadersHaveTheirLines, HeadersAreFound, OnlyHeadersAreFound};
ghost use Rattle.lsp_frame.specs.StreamLaws.{StreamsAreFrames, FramesAreUnique, TurnsAreFrames, StreamsShowTheirFaults, WrittenFramesAreWhole};

/// A law. A stream is whole frames, one after the other, and a rest that none begins. `frames` names their bodies
/// and the end that the rest shows, there is no other reading, and calls of `read_frame` in turn answer them.
pub fn stream_is_frames()
    ensures there { StreamsAreFrames }
    ensures only { FramesAreUnique }
    ensures in_turn { TurnsAreFrames }
{}

/// A law. The header part that a stream begins with is lines, each with its `\r\n`, and an empty line: what is found
/// is such a header part, such a header part of at most 8,192 bytes is found, and its lines are those.
pub fn header_is_lines()
    ensures lines { HeadersHaveTheirLines }
    ensures found { HeadersAreFound }
    ensures only { OnlyHeadersAreFound }
{}

/// A law. The fault that a stream ends with is one of 101 to 106.
pub fn stream_shows_its_fault()
    ensures { StreamsShowTheirFaults }
{}

/// A law. What `write_frame` writes of a body of at most 67,108,864 bytes is a whole frame with that body.
pub fn written_is_read()
    ensures { WrittenFramesAreWhole }
{}
