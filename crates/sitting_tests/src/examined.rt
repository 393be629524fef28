// A sitting that is opened, run and paged in one call: granted, refused at the open, and refused at the page.
use crate::shared::{marked, order};
use examiner::side::open_run_page;
use labels::cell::{Cell, Tag, Word};
use labels::refusal::Refusal;
use rules::flow_engine::FlowEngine;
use sitting::sitting::{Sitting, State};
use std::test::Fail;
use viewing::lent::LentMemory;
use viewing::page::Page;

// CONST 1 5, OUT 1, HALT, and one cell of word 42 and tag 1; the reader's label is 0.
const IMAGE: [u8; 32] = [
    0x11, 0, 0, 3, 0, 1, 0, 0, 0, 0, 0x11, 0, 0, 5, 0, 0, 0xb0, 0x10, 0, 0, 0, 0, 0xd0, 0, 0, 0, 0,
    1, 0, 0, 0, 42,
];

const SECRET: Cell = Cell {
    word: Word(42),
    tag: Tag(1),
};

const SHOWN: Cell = Cell {
    word: Word(5),
    tag: Tag(0),
};

// The lists that one sitting is examined in.
#[derive(Clone, Copy)]
struct Lists {
    cells: [Cell; 1],
    outputs: [Cell; 1],
    page: [Cell; 1],
}

impl Lists {
    fn new() -> Lists {
        Lists {
            cells: [marked()],
            outputs: [marked()],
            page: [marked()],
        }
    }

    fn unchanged(&self) -> bool {
        self.cells[0] == marked() && self.outputs[0] == marked() && self.page[0] == marked()
    }

    // Opens, runs and pages a sitting in them, with a budget of ten steps and so many places of the page list. The image is a
    // parameter, since a loan of the constant beside these gets no proof.
    fn call(
        &mut self,
        sitting: &mut Sitting,
        image: &[u8],
        places: usize,
    ) -> Result<Result<Page, Refusal>, Fail> {
        let order = order()?;
        let Some(page) = self.page.get_mut(..places) else {
            return Err(Fail::new("the page list has one place"));
        };
        let mut lent = LentMemory {
            image,
            cells: &mut self.cells,
            outputs: &mut self.outputs,
            page,
        };
        Ok(open_run_page(sitting, &order, &mut FlowEngine::new(order), 10, &mut lent))
    }
}

#[test]
fn granted_and_then_open_no_more(rt: HostRuntime) -> Result<(), Fail> {
    let mut sitting = Sitting::new();
    let mut lists = Lists::new();
    let answer = lists.call(&mut sitting, &IMAGE, 1)?;
    assert!(rt;
        matches!(
            answer,
            Ok(Page {
                outputs: 1,
                end_mark: true,
            })
        )
    );
    assert!(rt; lists.cells[0] == SECRET && lists.outputs[0] == SHOWN && lists.page[0] == SHOWN);
    let mut others = Lists::new();
    let answer = others.call(&mut sitting, &IMAGE, 1)?;
    assert!(rt; matches!(answer, Err(Refusal::WrongState)));
    assert!(rt; matches!(sitting.state(), State::Halted) && sitting.steps() == 3);
    assert!(rt;
        others.unchanged(),
        "a refused open of a halted sitting changes nothing"
    );
    Ok(())
}

#[test]
fn refused_at_the_open(rt: HostRuntime) -> Result<(), Fail> {
    let mut sitting = Sitting::new();
    let mut lists = Lists::new();
    let answer = lists.call(&mut sitting, &[], 1)?;
    assert!(rt; matches!(answer, Err(Refusal::ImageTooShort)));
    assert!(rt; matches!(sitting.state(), State::Blank));
    assert!(rt; lists.unchanged(), "a refused open changes nothing");
    Ok(())
}

#[test]
fn refused_at_the_page(rt: HostRuntime) -> Result<(), Fail> {
    let mut sitting = Sitting::new();
    let mut lists = Lists::new();
    let answer = lists.call(&mut sitting, &IMAGE, 0)?;
    assert!(rt; matches!(answer, Err(Refusal::WrongLength)));
    assert!(rt; matches!(sitting.state(), State::Halted) && sitting.steps() == 3);
    assert!(rt;
        lists.cells[0] == SECRET && lists.outputs[0] == SHOWN,
        "the open and the run stand"
    );
    assert!(rt; lists.page[0] == marked(), "the page list is unchanged");
    Ok(())
}
