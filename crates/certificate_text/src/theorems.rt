ghost use Rattle.certificate_text.specs.ReadCertificates.{ReadPiecesCanBePrinted, PiecesHaveOneText, ReportsFirstBadLine, TextOfPiecesIsRead};

/// Theorem: the text of a certificate is read as that certificate.
pub fn text_of_pieces_is_read()
    ensures { TextOfPiecesIsRead }
{}

/// Theorem: a text that is read as a certificate is the text of that certificate. No certificate has two
/// texts.
pub fn pieces_have_one_text()
    ensures { PiecesHaveOneText }
{}

/// Theorem: a certificate that is read from a text can be printed.
pub fn read_pieces_can_be_printed()
    ensures { ReadPiecesCanBePrinted }
{}

/// Theorem: the number that a reader reports is that of the first bad line. Some certificate begins with
/// the lines before it, and none with that line too.
pub fn reported_line_is_first()
    ensures { ReportsFirstBadLine }
{}
