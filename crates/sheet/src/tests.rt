use crate::{ExprEntry, Sheet, StmtEntry, Unread, Unwritten, write};
use image::{Block, Expr, ExprKind, Name, Position, Stmt, StmtRow};

const FIVE: ExprEntry = ExprEntry {
    row: Expr {
        at: Position { line: 1, column: 5 },
        kind: ExprKind::Host(0),
    },
    unread: 0,
    code: 0,
};

/// The image of `let a = 5`, as it stands among the recorded cases.
const LET: [u8; 55] = [
    82, 72, 83, 1, 0, 0, 1, 0, 1, 0, 1, 0, 9, 0, 0, 0, 1, 0, 4, 0, 1, 0, 1, 0, 0, 0, 0, 0, 0, 0, 0,
    0, 1, 0, 0, 0, 0, 0, 0, 0, 1, 0, 5, 0, 0, 0, 97, 98, 99, 100, 101, 102, 97, 98, 99,
];

/// A declaration of a name of this length.
fn declaration(length: u16) -> StmtEntry {
    StmtEntry {
        row: StmtRow {
            at: Position { line: 1, column: 1 },
            stmt: Stmt::Var {
                name: Name { offset: 0, length },
                expr: 0,
                index: None,
                constant: false,
            },
        },
        unread: Unread::default(),
    }
}

#[test]
fn writes_a_declaration(rt: HostRuntime) {
    let sheet = Sheet {
        blocks: &[Block { first: 0, count: 1 }],
        statements: &[declaration(1)],
        expressions: &[FIVE],
        text: b"abcdefabc",
    };
    let image = write(rt.alloc(), sheet).expect(&rt, "no image");
    assert_eq!(rt; image.as_slice(), LET.as_slice(), "another image");
}

/// Length 0 stands for no name.
#[test]
fn refuses_a_declaration_of_no_name(rt: HostRuntime) {
    let sheet = Sheet {
        blocks: &[Block { first: 0, count: 1 }],
        statements: &[declaration(0)],
        expressions: &[FIVE],
        text: b"abcdefabc",
    };
    assert_eq!(rt;
        write(rt.alloc(), sheet).err(),
        Some(Unwritten::Range),
        "an image"
    );
}
