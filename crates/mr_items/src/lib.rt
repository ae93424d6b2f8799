//! The items of a job's input and what each of them emits: words and lines by the places where they begin, fields, numbers, grids and
//! bitmaps; what the rounds of a job lead to; the texts of rows, of refusals, of the generator and of the report.
//!
//! The definitions stand in `specs/` and speak of whole inputs, never of a scan or of a piece. Readers, mappers and the top cite
//! them; containers and phases don't, so a new job leaves those as they are.
//!
//! Its promise: the tasks of an input, one after the other, emit exactly what the whole input emits (`laws_of_cutting`,
//! `laws_of_tasks`), and different lists of workers have different reports (`laws_of_report`).
#![tactic(auto)]

ghost use Rattle.std.specs.Prelude.{◌≡◌, ◌*◌, ℕ, ℤ, List, Option, length, flat_map};
ghost use Rattle.std.specs.List.{range_with_len};
ghost use Rattle.mr_items.specs.Bitmap.{pixel_rows};
ghost use Rattle.mr_items.specs.FoldLines.{fold_lines_emits, fold_lines_emissions};
ghost use Rattle.mr_items.specs.Grid.{columns_of};
ghost use Rattle.mr_items.specs.Histogram.{histogram_emits, histogram_emissions};
ghost use Rattle.mr_items.specs.InvertedIndex.{inverted_index_emits, inverted_index_emissions};
ghost use Rattle.mr_items.specs.KMeans.{kmeans_emits, kmeans_emissions};
ghost use Rattle.mr_items.specs.LinearRegression.{linear_regression_emits, linear_regression_emissions};
ghost use Rattle.mr_items.specs.Lines.{line_places};
ghost use Rattle.mr_items.specs.MatrixProduct.{matrix_product_emits, matrix_product_emissions};
ghost use Rattle.mr_items.specs.Pca.{column_emits, column_emissions, spread_emits, spread_emissions};
ghost use Rattle.mr_items.specs.Report.{Work, report_text, IsReportable};
ghost use Rattle.mr_items.specs.StringMatch.{string_match_emits, string_match_emissions};
ghost use Rattle.mr_items.specs.Tasks.{AllWords, AllLines, AllSpans};
ghost use Rattle.mr_items.specs.WordCount.{word_count_emits, word_count_emissions};
ghost use Rattle.mr_items.specs.Words.{word_places};

/// The first fault of a grid's text, with its offset in the whole input: a field that is no number from -2147483647 to 2147483647, a line
/// with another number of fields than the first row, a line with more than 1024 fields.
#[derive(Clone, Copy, Debug, PartialEq, Eq)]
pub enum GridFault {
    Number(u64),
    Ragged(u64),
    Wide(u64),
}

/// The first fault of a bitmap, in the order of the tests: fewer than 54 bytes, no `BM` in front, a header of another length than 40, other
/// than one plane, other than 24 bits a pixel, compressed, a width below 1, a height of 0, pixels that begin inside the header or behind
/// the end, and pixels that go past the end. The format is that of the 24-bit uncompressed Windows bitmap with a header of 40 bytes.
#[derive(Clone, Copy, Debug, PartialEq, Eq)]
pub enum BitmapFault {
    Short,
    Magic,
    Header,
    Planes,
    Depth,
    Compressed,
    Width,
    Height,
    Place,
    Pixels,
}

/// Carries the laws of cutting as clauses, for whatever the items emit: the tasks of the pieces between word boundaries, between line
/// boundaries, and of the spans, one after the other, emit what all items emit.
pub fn laws_of_cutting<E>()
    ensures words { (emits : ℕ → List E) (bytes : List ℕ) → AllWords bytes emits (flat_map emits (word_places bytes)) }
    ensures lines { (emits : ℕ → List E) (bytes : List ℕ) → AllLines bytes emits (flat_map emits (line_places bytes)) }
    ensures spans { (emits : ℕ → List E) (count : ℕ) → AllSpans count emits (flat_map emits (range_with_len 0 count)) }
{}

/// Carries the same for each job as clauses: its tasks, one after the other, emit exactly what the job emits of its whole inputs. `K` is
/// the type of the keys of lines that are folded.
pub fn laws_of_tasks<K>()
    ensures word_count { (bytes : List ℕ) → AllWords bytes (word_count_emits bytes) (word_count_emissions bytes) }
    ensures fold_lines { (key : List ℕ → Option K) (bytes : List ℕ)
        → AllLines bytes (fold_lines_emits key bytes) (fold_lines_emissions key bytes) }
    ensures inverted_index { (bytes : List ℕ) → AllLines bytes (inverted_index_emits bytes) (inverted_index_emissions bytes) }
    ensures string_match { (patterns : List (List ℕ)) (bytes : List ℕ)
        → AllLines bytes (string_match_emits patterns bytes) (string_match_emissions patterns bytes) }
    ensures histogram { (bytes : List ℕ) → AllSpans (pixel_rows bytes) (histogram_emits bytes) (histogram_emissions bytes) }
    ensures linear_regression { (grid : List (List ℤ))
        → AllSpans (length grid) (linear_regression_emits grid) (linear_regression_emissions grid) }
    ensures matrix_product { (left right : List (List ℤ))
        → AllSpans (length left * columns_of right) (matrix_product_emits left right) (matrix_product_emissions left right) }
    ensures kmeans { (means points : List (List ℤ)) → AllSpans (length points) (kmeans_emits means points) (kmeans_emissions means points) }
    ensures columns { (grid : List (List ℤ)) → AllSpans (length grid) (column_emits grid) (column_emissions grid) }
    ensures spread { (means : List ℤ) (grid : List (List ℤ))
        → AllSpans (length grid) (spread_emits means grid) (spread_emissions means grid) }
{}

/// Carries the law of reports as a clause. A report fixes its lists: of lists with the same bytes, whose rounds each have a worker and
/// whose numbers are below 2 ^ 64, each round has the same workers, each with the same tasks in the same order and the same number of
/// cells.
pub fn laws_of_report()
    ensures { (xs ys : List (List Work)) → IsReportable xs → IsReportable ys → report_text xs ≡ report_text ys → xs ≡ ys }
{}
