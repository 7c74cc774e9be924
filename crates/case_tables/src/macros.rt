/// A DST file of these records after any header; the header is filled with spaces.
#[macro_export]
macro_rules! records {
    ($bytes:expr) => {
        $crate::FileContent::Padded(b"", 512, 1, $bytes)
    };
}

/// A file of exactly these bytes.
#[macro_export]
macro_rules! with_bytes {
    ($name:expr => $bytes:expr) => {
        ($name, $crate::FileContent::Bytes($bytes))
    };
}

/// A step in which no call fails.
#[macro_export]
macro_rules! step {
    ($words:expr, $status:expr, $out:expr, $err:expr, $after:expr) => {
        $crate::CaseStep {
            words: $words,
            fails: $crate::FailingCalls {
                store: 0,
                out: 0,
                err: 0,
            },
            status: $status,
            out: $out,
            err: $err,
            after: $after,
        }
    };
}

/// A step that is done, with its report and the files that it writes, if they are compared.
#[macro_export]
macro_rules! done {
    ($words:expr => $out:expr) => {
        $crate::step!($words, 0, $crate::ExpectedText::Exactly($out), "", &[])
    };
    ($words:expr => $out:expr, $after:expr) => {
        $crate::step!($words, 0, $crate::ExpectedText::Exactly($out), "", $after)
    };
}

/// A step that is refused, with its line; it writes nothing.
#[macro_export]
macro_rules! refused {
    ($words:expr => $err:expr) => {
        $crate::step!($words, 1, $crate::ExpectedText::Exactly(""), $err, &[])
    };
}

/// A step that fails because it cannot read or write a file, with its line.
#[macro_export]
macro_rules! faulted {
    ($words:expr => $err:expr) => {
        $crate::faulted!($words => $err, &[])
    };
    ($words:expr => $err:expr, $after:expr) => {
        $crate::step!($words, 3, $crate::ExpectedText::Exactly(""), $err, $after)
    };
}

/// A case of these files, and of commands one after another.
#[macro_export]
macro_rules! case {
    ($($file:expr),*; $($step:expr),*) => {
        $crate::Case {
            before: &[$($file),*],
            steps: &[$($step),*],
        }
    };
}

/// A case of the drawing `a.rw` of this text, and of commands one after another.
#[macro_export]
macro_rules! drawn {
    ($text:expr; $($step:expr),*) => {
        $crate::case!($crate::with_bytes!("a.rw" => $text); $($step),*)
    };
}
