// The book of a site: limits of feeders in part 0, lines of sockets in part 1, marks in part 2.
ghost use Rattle.std.specs.Prelude.{◌≡◌, []};
ghost use Rattle.site_books.specs.Books.{book_items, book_room};

use kinds::limit::Limit;
use kinds::lines::Lines;
use kinds::mark::Mark;
use pairs::pair::Pair;
use stores::entries::Entry;
use tables::table::Table;

// A table for each part.
pub type SiteBook<'a> = Pair<Table<'a, Limit>, Pair<Table<'a, Lines>, Table<'a, Mark>>>;

// An empty site book in these rows, whatever they hold.
pub fn new_site_book<'a>(
    limits: &'a mut [Entry<Limit>],
    lines: &'a mut [Entry<Lines>],
    marks: &'a mut [Entry<Mark>],
) -> SiteBook<'a>
    ensures empty { book_items result.first.len result.first.rows.now result.second.first.len result.second.first.rows.now result.second.second.len result.second.second.rows.now ≡ [] }
    ensures room { book_room result.first.rows.now result.second.first.rows.now result.second.second.rows.now ≡ book_room limits.old lines.old marks.old }
{
    let later = Pair::new(Table::new(lines), Table::new(marks));
    Pair::new(Table::new(limits), later)
}
