//! The script's first part: rows. Made by `scripts/frame write` from `web/rows.js`.

/// Makes elements and rows.
pub(crate) const ROWS: &str = r#"</script>
<script>
'use strict';
// Rows of one height, of which the document holds those in sight.

// The height of a row, and the most that a pane may have: a browser's own limit is not far above it.
const ROW = 20;
const HIGHEST = 8000000;

function make(tag, name, text) {
  const made = document.createElement(tag);
  if (name) made.className = name;
  if (text !== undefined) made.textContent = text;
  return made;
}

/** What acts with the next frame, once, however often it is called before. */
function withNextFrame(act) {
  let isDue = false;
  return () => {
    if (isDue) return;
    isDue = true;
    requestAnimationFrame(() => {
      isDue = false;
      act();
    });
  };
}

class Rows {
  constructor(pane, draw) {
    Object.assign(this, { pane, draw, count: 0, touch: withNextFrame(() => this.paint()) });
    this.space = pane.appendChild(make('div', 'space'));
    this.shown = this.space.appendChild(make('div', 'shown'));
    pane.addEventListener('scroll', () => this.paint());
    new ResizeObserver(() => this.paint()).observe(pane);
  }

  resize(count) {
    this.count = count;
    this.space.style.height = `${Math.min(count * ROW, HIGHEST)}px`;
    this.paint();
  }

  /** How far the rows move for each pixel that is scrolled: 1, but for more rows than a pane has room for. */
  scale() {
    const seen = this.pane.clientHeight;
    const room = Math.min(this.count * ROW, HIGHEST) - seen;
    return room > 0 ? (this.count * ROW - seen) / room : 1;
  }

  paint() {
    const scrolled = this.pane.scrollTop;
    const top = scrolled * this.scale();
    const first = Math.max(0, Math.floor(top / ROW) - 4);
    const last = Math.min(this.count, Math.ceil((top + this.pane.clientHeight) / ROW) + 4);
    const drawn = [];
    for (let index = first; index < last; index++) drawn.push(this.draw(index));
    this.shown.replaceChildren(...drawn);
    this.shown.style.transform = `translateY(${scrolled - (top - first * ROW)}px)`;
  }

  /** Scrolls to a row that is out of sight. */
  reveal(index) {
    const seen = this.pane.clientHeight;
    const top = this.pane.scrollTop * this.scale();
    if (index * ROW < top || (index + 1) * ROW > top + seen) this.pane.scrollTop = (index * ROW - seen / 2) / this.scale();
    this.touch();
  }
}
"#;
