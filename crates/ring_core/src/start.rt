//! How a ring starts on its pages.
ghost use Rattle.std.specs.Prelude.{◌≡◌, if◌then◌else◌, length, IsTrue};
ghost use Rattle.std.specs.List.{All};
ghost use Rattle.argo_base.specs.Limits.{page_bytes};
ghost use Rattle.argo_base.specs.SlotBytes as bytes;
ghost use Rattle.argo_base.specs.Slots.{is_legal, is_place, page_count};
ghost use Rattle.argo_model.specs.Rules.Starts.{start_place, starts_clean};
ghost use Rattle.guest_pages.specs.Rows.{numbers_of, row_bytes};

use argo_base::slots::{is_place, page_count, sanitise};
use guest_pages::PageRow;
use ring_space::{rx_word, tx_word, write_tx};

/// Where a ring goes on, and whether it is clean.
#[derive(Clone, Copy)]
pub(crate) struct Start {
    pub(crate) tx: u32,
    pub(crate) clean: bool,
}

impl Start {
    /// Starts a ring of `len` slot bytes on its pages: a tx word that is no place of it is written anew.
    pub(crate) fn on(row: &mut PageRow, len: u32) -> Start
        requires legal { IsTrue (is_legal len) }
        requires pages { length row.old ≡ page_count len }
        ensures tx { result.tx
            ≡ start_place len (bytes.rx_word (row_bytes row.old))
            (bytes.tx_word (row_bytes row.old)) }
        ensures clean { result.clean
            ≡ starts_clean len (bytes.rx_word (row_bytes row.old))
            (bytes.tx_word (row_bytes row.old)) }
        ensures numbers { numbers_of row.new ≡ numbers_of row.old }
        ensures bytes { row_bytes row.new ≡
            (if is_place len (bytes.tx_word (row_bytes row.old)) then row_bytes row.old
            else bytes.write_tx result.tx (row_bytes row.old)) }
        ensures whole { All (λ p. length p.1 ≡ page_bytes) row.old }
    {
        let has_pages = row.count() == page_count(len) as usize;
        prove!(has_pages);
        let rx = rx_word(row);
        let tx = tx_word(row);
        if is_place(len, tx) {
            return Start {
                tx,
                clean: is_place(len, rx) && rx == tx,
            };
        }
        let place = sanitise(rx, len);
        write_tx(row, place);
        Start {
            tx: place,
            clean: is_place(len, rx) && rx == place,
        }
    }
}
