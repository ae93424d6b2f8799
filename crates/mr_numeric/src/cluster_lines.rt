ghost use Rattle.std.specs.Prelude.{◌≡◌, ◌++◌, ◌∷◌, decimal, flat_map, IfOk, OnOk};
ghost use Rattle.mr_items.specs.KMeans as items;
ghost use Rattle.mr_items.specs.Texts as texts;

use crate::means::Means;
use crate::sums::number_at;
use mr_base::{Memory, NumKey, Rows, Text};
use std::alloc::Global;

/// The text of clusters, from the means that a round led to and its rows: a line for each cluster, with its number, how many points it has
/// and the coordinates of its mean.
pub fn kmeans_text(alloc: Global, means: &Means, rows: &Rows<NumKey>) -> Result<Text, Memory>
    ensures { IfOk result (λ text. text ≡ items.kmeans_text means.now rows.now) }
{
    let mut text = Text::new(alloc);
    for cluster in 0..means.len() {
        let points = number_at(rows, cluster as u64);
        push_cluster(
            &mut text,
            cluster,
            points,
            means.mean(cluster).coordinates(),
        )?;
    }
    Ok(text)
}

/// Appends the line of a cluster.
fn push_cluster(text: &mut Text, cluster: usize, points: i128, mean: &[i128]) -> Result<(), Memory>
    ensures { OnOk result (text.new ≡ text.old ++ texts.line (decimal cluster ++ flat_map texts.spaced (points ∷ mean.now))) }
{
    text.push_natural(cluster as u64)?;
    push_spaced(text, points)?;
    push_coordinates(text, mean)?;
    text.push(b"\n")
}

/// Appends a space and a number for each coordinate.
fn push_coordinates(text: &mut Text, mean: &[i128]) -> Result<(), Memory>
    ensures { OnOk result (text.new ≡ text.old ++ flat_map texts.spaced mean.now) }
{
    for coordinate in mean {
        push_spaced(text, *coordinate)?;
    }
    Ok(())
}

/// Appends a space and a number.
fn push_spaced(text: &mut Text, number: i128) -> Result<(), Memory>
    ensures { OnOk result (text.new ≡ text.old ++ texts.spaced number) }
{
    text.push(b" ")?;
    text.push_number(number)
}
