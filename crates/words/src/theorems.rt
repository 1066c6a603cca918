// How words stand in a line and lines in a text. Each function stands for the theorem that its contract names.
ghost use Rattle.words.specs.Parted.{WordsParted, LinesEnded};

// The words of a line are those that spaces part, each at its place.
pub fn words_parted()
    ensures { WordsParted }
{}

// The lines of a text are those that byte 10 ends, the last perhaps without it.
pub fn lines_ended()
    ensures { LinesEnded }
{}
