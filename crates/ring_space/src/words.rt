//! The two words at the head of a ring's first page.
ghost use Rattle.std.specs.Prelude.{◌≡◌, ◌<◌, ◌≤◌, length};
ghost use Rattle.argo_base.specs.Layout.{u32_at};
ghost use Rattle.guest_pages.specs.Rows.{row_bytes, numbers_of};
ghost use Rattle.argo_base.specs.SlotBytes.{rx_word, tx_word, write_tx};

use guest_pages::PageRow;

// The word at an offset of the first page.
fn word_at(row: &PageRow, off: u32) -> u32
    requires some { 0 < length row.now }
    requires head { off ≤ 4 }
    ensures { result ≡ u32_at (row_bytes row.now) off }
{
    let mut word = [0; 4];
    row.read(0, off, &mut word);
    u32::from_le_bytes(word)
}

/// The word by which the receiver says how far it has read, which the guest may write as it likes.
pub fn rx_word(row: &PageRow) -> u32
    requires { 0 < length row.now }
    ensures { result ≡ rx_word (row_bytes row.now) }
{
    word_at(row, 0)
}

/// The word by which the hypervisor says how far it has written, which the guest may write as it likes.
pub fn tx_word(row: &PageRow) -> u32
    requires { 0 < length row.now }
    ensures { result ≡ tx_word (row_bytes row.now) }
{
    word_at(row, 4)
}

/// Writes the word by which the hypervisor says how far it has written.
pub fn write_tx(row: &mut PageRow, tx: u32)
    requires { 0 < length row.old }
    ensures numbers { numbers_of row.new ≡ numbers_of row.old }
    ensures bytes { row_bytes row.new ≡ write_tx tx (row_bytes row.old) }
{
    row.write(0, 4, &tx.to_le_bytes());
}
