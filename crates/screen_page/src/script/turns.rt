//! Part of the script: which ward is shown, which part of it, and for how long.

/// Declares the order in which wards take turns.
pub(crate) const TURNS: &str = r#"// ---- turns

// How many seconds something is shown: the last stage, or who is elected; a ward that isn't sealed; a new stage. All new stages of a ward
// together take no longer than ALL_NEW.
const LONG = 12, EARLY = 6, NEW = 6, ALL_NEW = 48, LEAST = 2;
// How many wards are listed at once. If more aren't sealed than EARLY_WARDS, these are in the list alone.
const LISTED = 24, EARLY_WARDS = 8;

// What is shown: a page of the list of wards (ward 0), or a part of a ward. A part is a stage, by its number; the part after the last stage
// is the declaration; and 0 is all that there is before the first stage. `left` is for how many seconds more. `hold` is empty; or `ward`:
// the ward stays; or `part`: the part stays too. `turn` is the place to continue from: a ward with something new comes out of its turn.
const shown = {ward: 0, part: 0, left: 0, pace: NEW, hold: '', isNews: false, turn: {ward: 0, part: -1}};
// The last part of each ward that was shown.
const seen = new Map();

const seenOf = (ward) => seen.get(ward) ?? 0;

// Returns the number of the last part of a ward. Of its first one it is 0, or 1 once there is a part 1.
const lastPart = (ward) => {
  const count = office.counts.get(ward);
  return count ? count.stages.length + Number(count.isDeclared) : 0;
};
const firstPart = (ward) => Math.min(1, lastPart(ward));

const hasNews = ({ward}) => lastPart(ward) > seenOf(ward);

// Returns the part with which a ward begins: the last one that was shown, if there are new ones; or else the last stage.
const openingOf = (ward) => {
  const last = lastPart(ward);
  const part = seenOf(ward) < last ? seenOf(ward) : last - Number(office.counts.get(ward)?.isDeclared ?? false);
  return Math.max(firstPart(ward), part);
};

// Returns all turns: the pages of the list, and then each ward.
const turns = () => {
  const {wards} = office;
  const pages = wards.length === 1 ? 0 : Math.ceil(wards.length / LISTED);
  const each = wards.filter((it) => !isCounted(it)).length > EARLY_WARDS ? wards.filter(isCounted) : wards;
  return [...Array.from({length: pages}, (_, part) => ({ward: 0, part})), ...each.map(({ward}) => ({ward, part: 0}))];
};

// Returns for how long the part that is shown stays.
const secondsFor = () => {
  const {ward, part, pace} = shown;
  if (ward && !isCounted(wardAt(ward) ?? {})) return EARLY;
  return ward && part < lastPart(ward) ? pace : LONG;
};

const showPart = (part) => {
  shown.part = part;
  if (shown.ward) seen.set(shown.ward, Math.max(part, seenOf(shown.ward)));
  shown.left = secondsFor();
};

const showTurn = ({ward, part}) => {
  const fresh = Math.max(1, lastPart(ward) - seenOf(ward));
  Object.assign(shown, {ward, pace: Math.max(LEAST, Math.min(NEW, ALL_NEW / fresh))});
  showPart(ward ? openingOf(ward) : part);
};

// Returns the place among all turns that comes after one, or before it.
const placeFrom = (all, {ward, part}, by) => {
  const place = all.findIndex((it) => it.ward === ward && (ward || it.part === part));
  if (place >= 0) return (place + by + all.length) % all.length;
  const later = all.findIndex((it) => it.ward > ward || (!ward && !it.ward && it.part > part));
  return later < 0 ? 0 : later;
};

// Goes to the next turn. If nothing is new there, every other time a ward with something new comes first.
const nextTurn = () => {
  const all = turns();
  if (!all.length) return;
  const next = all[placeFrom(all, shown.turn, 1)];
  const news = shown.isNews || hasNews(next) ? undefined : office.wards.find(hasNews);
  shown.isNews = Boolean(news);
  if (!news) shown.turn = next;
  showTurn(news ?? next);
};

// Goes to the turn before or after what is shown, as a person asks.
const goBy = (by) => {
  const all = turns();
  if (!all.length) return;
  shown.turn = all[placeFrom(all, shown, by)];
  Object.assign(shown, {isNews: false, hold: shown.hold && 'ward'});
  showTurn(shown.turn);
};

// Goes to another part of the ward that is shown, which stays then.
const stepBy = (by) => {
  if (!shown.ward) return;
  shown.hold = 'part';
  showPart(Math.max(firstPart(shown.ward), Math.min(lastPart(shown.ward), shown.part + by)));
};

// Continues by itself: to the next part, or to the next turn.
const goOn = () => {
  if (shown.hold === 'part') shown.left = LONG;
  else if (shown.ward && shown.part < lastPart(shown.ward)) showPart(shown.part + 1);
  else if (shown.hold) shown.left = LONG;
  else nextTurn();
};

// Lets a second pass.
const pass = () => {
  shown.left -= 1;
  if (shown.left <= 0) goOn();
};

// Meets what changed at the office: a part that isn't there any more isn't shown, and a new one of this ward follows soon.
const meetChange = () => {
  const {ward, part} = shown;
  if (shown.turn.part < 0 || (ward && !wardAt(ward))) return nextTurn();
  for (const [number, last] of seen) seen.set(number, Math.min(last, lastPart(number)));
  if (ward && part > lastPart(ward)) showPart(lastPart(ward));
  else if (ward && part < firstPart(ward)) showPart(firstPart(ward));
  else if (part < lastPart(ward)) shown.left = Math.min(shown.left, shown.pace);
  return undefined;
};

"#;
